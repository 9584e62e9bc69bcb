// One entry: its size, what it is to its holder, and what is noted of it.
ghost use Rattle.std.specs.Prelude.{◌≡◌, false, cond, ◌&&◌, eqb};
ghost use Rattle.configuration.specs.Entries.{padded_size, is_holder, holds_list};
ghost use Rattle.configuration.specs.Reading.{wrong_length};
ghost use Rattle.configuration.specs.Noting.{bare, tally, noted};

use crate::Seen;

// The octets of an entry whose value has n, with its padding.
#[tactic(auto, unfolding(crate::specs::Entries::padded_size))]
pub fn padded_size(n: u16) -> usize
    ensures { result ≡ padded_size n }
{
    4 + (n as usize + 3) / 4 * 4
}

// Type numbers are read by their holder, which the levels left name.
pub fn is_named(levels: u8, kind: u16, holder: u8, own: u16) -> bool
    ensures { result ≡ (eqb levels holder && eqb kind own) }
{
    levels == holder && kind == own
}

fn is_holder(levels: u8, kind: u16) -> bool
    ensures { result ≡ is_holder (bare levels kind 0 false) }
{
    is_named(levels, kind, 3, 16) || is_named(levels, kind, 2, 1)
}

// A holder that fits and has its four octets of flags: a list stands behind them.
pub fn holds_list(levels: u8, kind: u16, size: u16, past: bool) -> bool
    ensures { result ≡ holds_list (bare levels kind size past) }
{
    is_holder(levels, kind) && !past && 4 <= size
}

// A known entry whose length its layout does not allow. All four are asked: with early ends between them an entry takes 39
// instructions more.
#[tactic(auto, unfolding(crate::specs::Reading::wrong_length))]
pub fn wrong_length(authentication: u16, levels: u8, kind: u16, size: u16) -> bool
    ensures { result ≡ wrong_length authentication (bare levels kind size false) }
{
    let holder = is_holder(levels, kind) & (size < 4);
    let discriminator = is_named(levels, kind, 1, 1) & (size != 4);
    let timers = is_named(levels, kind, 1, 2) & (size != 12);
    let authenticated = is_named(levels, kind, 1, authentication) & (size != 4);
    holder | discriminator | timers | authenticated
}

// One more where the test holds, and 2 for many.
pub fn tallied(test: bool, n: u8) -> u8
    ensures { result ≡ tally test n }
{
    if test && n < 2 { n + 1 } else { n }
}

fn chosen(test: bool, a: u32, b: u32) -> u32
    ensures { result ≡ cond test a b }
{
    if test { a } else { b }
}

// What is noted of an entry, whatever it is.
#[tactic(auto, unfolding(crate::specs::Noting::noted))]
pub fn note(
    authentication: u16,
    seen: Seen,
    levels: u8,
    kind: u16,
    size: u16,
    past: bool,
    value: &[u8],
) -> Seen
    ensures { result ≡ noted authentication seen (record { levels = levels; kind = kind; size = size; past = past; value = value.now }) }
{
    let discriminator = is_named(levels, kind, 1, 1);
    let timers = is_named(levels, kind, 1, 2);
    let number = octets::get_u32(value, 0);
    let transmit = octets::get_u32(value, 0);
    Seen {
        discriminator: chosen(discriminator, number, seen.discriminator),
        period: chosen(timers, transmit, seen.period),
        functions: tallied(is_named(levels, kind, 3, 16), seen.functions),
        configurations: tallied(is_named(levels, kind, 2, 1), seen.configurations),
        discriminators: tallied(discriminator, seen.discriminators),
        timers: tallied(timers, seen.timers),
        past: seen.past | past,
        wrong: seen.wrong | wrong_length(authentication, levels, kind, size),
    }
}
