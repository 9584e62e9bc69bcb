// A part of octets that are lent: what is there of it.
ghost use Rattle.std.specs.Prelude.{◌≡◌, take, drop};

// The octets from a place on; none past the end.
pub fn from_place(s: &[u8], at: usize) -> &[u8]
    ensures { result.now ≡ drop at s.now }
{
    if s.len() <= at {
        return &s[0..0];
    }
    &s[at..]
}

// So many octets from a place on; what is there of them.
pub fn part(s: &[u8], at: usize, size: usize) -> &[u8]
    ensures { result.now ≡ take size (drop at s.now) }
{
    let rest = from_place(s, at);
    if rest.len() <= size {
        return rest;
    }
    &rest[..size]
}
