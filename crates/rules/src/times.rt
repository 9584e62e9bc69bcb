// Clock readings and ages, with no sum that wraps.
ghost use Rattle.std.specs.Prelude.{◌≡◌, ◌/◌};
ghost use Rattle.rules.specs.Times.{late, past, within, detection_time, lifetime};

pub const CROSSING_TIME: u64 = 3_500_000;

// Refusal 1: a reading below the clock, or above the greatest.
#[tactic(auto, unfolding(crate::specs::Times::late))]
pub fn is_late(clock: u64, reading: u64) -> bool
    ensures { result ≡ late clock reading }
{
    reading < clock || 9_223_372_036_854_775_807 < reading
}

// More than `span` has gone since `at`.
#[tactic(auto, unfolding(crate::specs::Times::past))]
pub fn is_past(at: u64, span: u64, now: u64) -> bool
    ensures { result ≡ past at span now }
{
    at < now && span < now - at
}

// Less than `span` has gone since `at`.
#[tactic(auto, unfolding(crate::specs::Times::within))]
pub fn is_within(at: u64, span: u64, now: u64) -> bool
    ensures { result ≡ within at span now }
{
    now < at || now - at < span
}

pub fn detection_time(period: u32, multiplier: u8) -> u64
    ensures { result ≡ detection_time period multiplier }
{
    (period as u64) * (multiplier as u64)
}

// One bit more of a refresh: the time of the bits above it twice, and 3,500,000 more where the bit is
// set. The old cards have no wide multiply.
fn doubled(half: u64, refresh: u8) -> u64
    requires { half ≡ lifetime (refresh / 2) }
    ensures { result ≡ lifetime refresh }
{
    let twice = half + half;
    if refresh % 2 == 1 {
        return twice + 3_500_000;
    }
    twice
}

// How long a condition stands, for every one of the 256 values of refresh, bit by bit from its
// highest.
pub fn lifetime_of(refresh: u8) -> u64
    ensures { result ≡ lifetime refresh }
{
    let a = doubled(0, refresh / 128);
    let b = doubled(a, refresh / 64);
    let c = doubled(b, refresh / 32);
    let d = doubled(c, refresh / 16);
    let e = doubled(d, refresh / 8);
    let f = doubled(e, refresh / 4);
    let g = doubled(f, refresh / 2);
    doubled(g, refresh)
}
