// Places in a buffer, and octets moved in it.
ghost use Rattle.std.specs.Prelude.{◌≡◌, ◌||◌, ◌+◌, ◌-◌, ◌≤◌, min, eqb, length, take, drop};
ghost use Rattle.pump.specs.Pumping.{Within, Shifted};

// So many places further, and not past the end.
pub fn advance(at: usize, n: usize, end: usize) -> usize
    ensures { result ≡ min (at + n) end }
{
    at.saturating_add(n).min(end)
}

// The input ends where it did before, and where nothing was read.
pub fn is_end(closed: bool, n: usize) -> bool
    ensures { result ≡ closed || eqb n 0 }
{
    closed || n == 0
}

// At most so many of the buffer's octets.
pub fn within(n: usize, buf: &[u8]) -> usize
    ensures { Within n buf.now result }
{
    n.min(buf.len())
}

// The octets from a place to another, as far as the buffer goes.
pub fn part(s: &[u8], from: usize, to: usize) -> &[u8]
    ensures { result.now ≡ take (to - from) (drop from s.now) }
{
    octets::part(s, from, to.saturating_sub(from))
}

// The octets from a place to another, which the buffer has, one by one: the library copies between two slices, and not
// within one.
fn move_within(buf: &mut [u8], from: usize, to: usize) -> usize
    requires { to ≤ length buf.old }
    ensures { Shifted buf.old from to result buf.new }
{
    let n = to.saturating_sub(from);
    for i in 0..n {
        buf[i] = buf[from + i];
    }
    n
}

// The octets from a place to another, as far as the buffer goes, are moved to the front; how many
// they are is answered.
pub fn shift(buf: &mut [u8], from: usize, to: usize) -> usize
    ensures { Shifted buf.old from to result buf.new }
{
    let n = within(to, &*buf);
    move_within(buf, from, n)
}
