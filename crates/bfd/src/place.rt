// Where a BFD message goes wrong: the field of the first rule that is broken, in the order of octets.
ghost use Rattle.std.specs.Prelude.{◌≡◌};
ghost use Rattle.bfd.specs.Reception.{rule_place, your_place, body_place, cc_place};

use gach::CC_CHANNEL;
use octets::{get_u8, get_u32};

// The reception rules that hold on both channels.
#[tactic(auto, unfolding(crate::specs::Reception::rule_place))]
fn rule_place(version: u8, flags: u8, multiplier: u8, length: u8, my: u32, rest: usize) -> usize
    ensures { result ≡ rule_place version flags multiplier length my rest }
{
    if version / 32 != 1 {
        return 4;
    }
    if flags / 4 % 2 != 0 {
        return 5;
    }
    if flags % 2 != 0 {
        return 5;
    }
    if multiplier == 0 {
        return 6;
    }
    if length < 24 {
        return 7;
    }
    if my == 0 {
        return 8;
    }
    rest
}

// The rule on Your Discriminator, for CC alone.
#[tactic(auto, unfolding(crate::specs::Reception::your_place))]
fn your_place(state: u8, your: u32, rest: usize) -> usize
    ensures { result ≡ your_place state your rest }
{
    if your == 0 && state >= 2 { 12 } else { rest }
}

// Behind the header, on either BFD channel; else `rest`.
#[tactic(auto, unfolding(crate::specs::Reception::body_place))]
pub fn body_place(m: &[u8], rest: usize) -> usize
    ensures { result ≡ body_place m.now rest }
{
    if m.len() < 28 {
        return m.len();
    }
    rule_place(m[4], m[5], m[6], m[7], get_u32(m, 8), rest)
}

// Where a CC goes wrong; of an accepted one the octets used.
#[tactic(auto, unfolding(crate::specs::Reception::cc_place))]
pub fn cc_place(m: &[u8]) -> usize
    ensures { result ≡ cc_place m.now }
{
    let end = m.len().min(4 + get_u8(m, 7) as usize);
    let your = your_place(get_u8(m, 5) / 64, get_u32(m, 12), end);
    gach::channel_place(m, CC_CHANNEL, body_place(m, your))
}
