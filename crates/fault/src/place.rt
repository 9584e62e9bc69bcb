// Where a fault message goes wrong.
ghost use Rattle.std.specs.Prelude.{◌≡◌};
ghost use Rattle.fault.specs.Message.{range_place, head_place, cut_place, front_place, place_with, fault_place};

use crate::tlv::{Tlvs, read_tlvs};
use gach::{FAULT_CHANNEL, channel_place};
use octets::get_u8;

// The octet `at`, where its number is not 1 to `most`; else `rest`.
fn range_place(number: u8, most: u8, at: usize, rest: usize) -> usize
    ensures { result ≡ range_place number most at rest }
{
    if number < 1 || most < number {
        at
    } else {
        rest
    }
}

// Version, type or refresh time, the first that the rules do not know; else `rest`.
#[tactic(auto, unfolding(crate::specs::Message::head_place))]
fn head_place(m: &[u8], rest: usize) -> usize
    ensures { result ≡ head_place m.now rest }
{
    let refresh = range_place(get_u8(m, 7), 20, 7, rest);
    let kind = range_place(get_u8(m, 5), 2, 5, refresh);
    if get_u8(m, 4) / 16 != 1 {
        return 4;
    }
    kind
}

// The length of the message where it ends before `end`; else `rest`.
fn cut_place(m: &[u8], end: usize, rest: usize) -> usize
    ensures { result ≡ cut_place m.now end rest }
{
    if m.len() < end { m.len() } else { rest }
}

// Before the TLVs; else `rest`.
#[tactic(auto, unfolding(crate::specs::Message::front_place))]
fn front_place(m: &[u8], rest: usize) -> usize
    ensures { result ≡ front_place m.now rest }
{
    let end = 9 + get_u8(m, 8) as usize;
    let head = head_place(m, cut_place(m, end, rest));
    channel_place(m, FAULT_CHANNEL, cut_place(m, 9, head))
}

// At the wrong octet of a TLV; where there is none, the octets used.
#[tactic(auto, unfolding(crate::specs::Message::place_with))]
pub(crate) fn place_with(m: &[u8], t: Tlvs) -> usize
    ensures { result ≡ place_with m.now t }
{
    let octet = if t.bad == 0 {
        9 + get_u8(m, 8) as usize
    } else {
        t.bad as usize
    };
    front_place(m, octet)
}

// Where a fault message goes wrong; of an accepted one the octets used.
#[tactic(auto, unfolding(crate::specs::Message::fault_place))]
pub fn fault_place(m: &[u8]) -> usize
    ensures { result ≡ fault_place m.now }
{
    place_with(m, read_tlvs(m, get_u8(m, 8)))
}
