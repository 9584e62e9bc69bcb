// The MEP-ID in octets, type to end.
ghost use Rattle.std.specs.Prelude.{◌≡◌, [], ◌+◌};
ghost use Rattle.octets.specs.Numbers.{number_at};
ghost use Rattle.cv.specs.Forms.{value_length};
ghost use Rattle.cv.specs.MepId.{agi_at, mep_id_at, stretch_at, head_octets, whole_octets, same_group, same_mep_id};

use crate::form::value_length;
use crate::words::same_agi;
use crate::{Agi, MepId};
use octets::{get_u8, get_u16, get_u32, get_u64, put_u16, put_u32, put_u64};

// Two of the four words of an AGI.
#[derive(Clone, Copy)]
struct Half {
    first: u64,
    second: u64,
}

// They are read in a function of their own that is called twice: so its code stands once, and what
// reads a message stays small enough to be one piece of code with the loop over the records.
fn half_at(s: &[u8], at: u32) -> Half
    ensures { result ≡ record { first = number_at 8 s.now at; second = number_at 8 s.now (at + 8) } }
{
    let from = at as usize;
    Half {
        first: get_u64(s, from),
        second: get_u64(s, from + 8),
    }
}

// The AGI of the MEP-ID from a place of a slice.
fn agi_at(s: &[u8], at: u16) -> Agi
    ensures { result ≡ agi_at s.now at }
{
    let from = at as u32;
    let front = half_at(s, from + 18);
    let back = half_at(s, from + 34);
    Agi {
        first: front.first,
        second: front.second,
        third: back.first,
        fourth: back.second,
    }
}

// The MEP-ID from a place of a slice that ends where it does, in range or not; what lies past the
// end reads as 0.
pub fn mep_id_at(s: &[u8], at: u16) -> MepId
    ensures { result ≡ mep_id_at s.now at }
{
    let from = at as usize;
    let agi = agi_at(s, at);
    MepId {
        agi,
        global: get_u32(s, from + 4),
        node: get_u32(s, from + 8),
        local: get_u32(s, from + 12),
        kind: get_u16(s, from),
        group: get_u8(s, from + 16),
        size: get_u8(s, from + 17),
    }
}

// The MEP-ID from a place of a slice, refused or not: read from its own octets and none behind them.
pub(crate) fn mep_id_in(s: &[u8], at: u16) -> MepId
    ensures { result ≡ mep_id_at (stretch_at s.now at) 0 }
{
    let from = at as usize;
    let length = get_u16(s, from + 2) as usize;
    mep_id_at(octets::part(s, from, 4 + length), 0)
}

// The octets of a MEP-ID, type to end: 16, or 18 to 50.
#[tactic(auto, unfolding(crate::specs::Forms::value_length))]
pub fn mep_size(id: MepId) -> usize
    ensures { result ≡ 4 + value_length id.kind id.size }
{
    4 + value_length(id.kind, id.size) as usize
}

// Every number of a MEP-ID in octets; the first `mep_size` of them are the MEP-ID.
#[tactic(auto, unfolding(crate::specs::MepId::head_octets, crate::specs::MepId::agi_octets))]
pub fn mep_octets(id: MepId) -> [u8; 50]
    ensures { result ≡ whole_octets id }
{
    let mut o = [0u8; 50];
    put_u16(&mut o, 0, id.kind);
    put_u16(&mut o, 2, value_length(id.kind, id.size));
    put_u32(&mut o, 4, id.global);
    put_u32(&mut o, 8, id.node);
    put_u32(&mut o, 12, id.local);
    o[16] = id.group;
    o[17] = id.size;
    put_u64(&mut o, 18, id.agi.first);
    put_u64(&mut o, 26, id.agi.second);
    put_u64(&mut o, 34, id.agi.third);
    put_u64(&mut o, 42, id.agi.fourth);
    o
}

// The same AGI.
#[tactic(auto, unfolding(crate::specs::MepId::same_group))]
fn same_group(a: MepId, b: MepId) -> bool
    ensures { result ≡ same_group a b }
{
    a.group == b.group && a.size == b.size && same_agi(a.size, a.agi, b.agi)
}

// The same type and value: no derived `==`, since what a type does not use, and the octets behind the AGI, are no
// part of it (`same_mep_id`).
#[tactic(auto, unfolding(crate::specs::MepId::same_mep_id))]
pub fn same_mep_id(a: MepId, b: MepId) -> bool
    ensures { result ≡ same_mep_id a b }
{
    a.kind == b.kind
        && a.global == b.global
        && a.node == b.node
        && a.local == b.local
        && (a.kind < 2 || same_group(a, b))
}
