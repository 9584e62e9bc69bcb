// Signed 64-bit numbers: what fits, the size of one, sums, and the lesser and greater of two.
ghost use Rattle.std.specs.Prelude.{◌≡◌, ◌+◌, ◌<◌, ◌^◌, pos, negsuc, nat_abs, ◌+ℤ◌, ◌-ℤ◌};
ghost use Rattle.std.specs.Int.{w64};
ghost use Rattle.std.proofs.Common.{SFits};
ghost use Rattle.account.specs.Figures.{lesser, greater, chosen, fits};
ghost use Rattle.account.specs.Accounts.{signed, signed_in, counted, counted_in};

pub const MOST: u64 = 9223372036854775807;

pub fn positive(n: u64) -> Option<i64>
    ensures { signed_in result ≡ signed (pos n) }
{
    if n > MOST {
        return None;
    }
    Some(n as i64)
}

fn below_zero(n: u64) -> i64
    requires { n < 2 ^ 63 }
    ensures { result ≡ negsuc n }
{
    0 - n as i64 - 1
}

// What lies so far below 0: the distance is a sum.
pub fn negative(m: u64, n: u64) -> Option<i64>
    ensures { signed_in result ≡ signed (pos 0 -ℤ pos (m + n)) }
{
    if m > MOST + 1 || n > MOST + 1 - m {
        return None;
    }
    let size = m + n;
    if size == 0 {
        return positive(0);
    }
    Some(below_zero(size - 1))
}

pub fn size_of(e: i64) -> u64
    ensures { result ≡ nat_abs e }
{
    if e < 0 {
        return (0 - (e + 1)) as u64 + 1;
    }
    e as u64
}

// The sum of two counts.
pub fn total(a: u64, b: u64) -> Option<u64>
    ensures { counted_in result ≡ counted (a + b) }
{
    if a > MOST || b > MOST - a {
        return None;
    }
    Some(a + b)
}

fn has_room(a: i64, b: i64) -> bool
    ensures { result ≡ fits (a +ℤ b) }
{
    if b < 0 {
        return a >= i64::MIN - b;
    }
    a <= i64::MAX - b
}

fn sum_of(a: i64, b: i64) -> i64
    requires { SFits w64 (a +ℤ b) }
    ensures { result ≡ a +ℤ b }
{
    a + b
}

// The sum of two signed numbers.
pub fn sum_in(a: i64, b: i64) -> Option<i64>
    ensures { signed_in result ≡ signed (a +ℤ b) }
{
    if has_room(a, b) {
        Some(sum_of(a, b))
    } else {
        None
    }
}

fn lesser_of(a: i64, b: i64) -> i64
    ensures { result ≡ lesser a b }
{
    if a < b { a } else { b }
}

fn greater_of(a: i64, b: i64) -> i64
    ensures { result ≡ greater a b }
{
    if a < b { b } else { a }
}

// The least of two sides with m and n pairs: a side without pairs gives way.
pub fn least_of(m: u64, p: i64, n: u64, q: i64) -> i64
    ensures { result ≡ chosen lesser m p n q }
{
    let met = lesser_of(p, q);
    if m == 0 {
        return q;
    }
    if n == 0 {
        return p;
    }
    met
}

pub fn greatest_of(m: u64, p: i64, n: u64, q: i64) -> i64
    ensures { result ≡ chosen greater m p n q }
{
    let met = greater_of(p, q);
    if m == 0 {
        return q;
    }
    if n == 0 {
        return p;
    }
    met
}
