// Two AGIs, compared as far as their length goes.
ghost use Rattle.std.specs.Prelude.{◌≡◌, ◌-◌, eqb};
ghost use Rattle.cv.specs.MepId.{front_of, same_agi};

use crate::Agi;

// The first n octets of a word, as a number; all 8 where n is more.
#[tactic(auto, unfolding(crate::specs::MepId::front_of))]
fn front_of(n: u8, word: u64) -> u64
    ensures { result ≡ front_of n word }
{
    match n {
        0 => 0,
        1 => word / 72_057_594_037_927_936,
        2 => word / 281_474_976_710_656,
        3 => word / 1_099_511_627_776,
        4 => word / 4_294_967_296,
        5 => word / 16_777_216,
        6 => word / 65_536,
        7 => word / 256,
        _ => word,
    }
}

// The same first n octets of a word.
#[tactic(auto, unfolding(crate::specs::MepId::front_of))]
fn same_front(n: u8, a: u64, b: u64) -> bool
    ensures { result ≡ eqb (front_of n a) (front_of n b) }
{
    front_of(n, a) == front_of(n, b)
}

// The same first n octets of an AGI.
#[tactic(auto, unfolding(crate::specs::MepId::same_agi))]
pub(crate) fn same_agi(n: u8, a: Agi, b: Agi) -> bool
    ensures { result ≡ same_agi n a b }
{
    same_front(n, a.first, b.first)
        && same_front(n.saturating_sub(8), a.second, b.second)
        && same_front(n.saturating_sub(16), a.third, b.third)
        && same_front(n.saturating_sub(24), a.fourth, b.fourth)
}
