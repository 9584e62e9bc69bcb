// The fault message, written in its plain form: IF_ID, then Global_ID, and nothing else.
ghost use Rattle.std.specs.Prelude.{◌≡◌, [], length};
ghost use Rattle.octets.specs.Refusals.{refusal_in};
ghost use Rattle.octets.specs.Writing.{Written, writing};
ghost use Rattle.fault.specs.Octets.{if_tlv, global_tlv, total_of, filled, head_octets, all_octets, field_refusal, fault_octets};

use crate::read::range_refusal;
use crate::{Fault, IfId};
use octets::{Refusal, put_octets, put_u32, write_unless_refused};

// 10 for fields that are out of their range.
pub fn field_refusal(f: Fault) -> Result<(), Refusal>
    ensures { refusal_in result ≡ field_refusal f }
{
    range_refusal(Refusal::OutOfRange, f.kind, f.refresh)
}

fn if_size(i: Option<IfId>) -> u8
    ensures { result ≡ length (if_tlv i) }
{
    if i.is_some() { 10 } else { 0 }
}

fn global_size(g: Option<u32>) -> u8
    ensures { result ≡ length (global_tlv g) }
{
    if g.is_some() { 6 } else { 0 }
}

// How many octets the TLVs are.
fn total_size(f: Fault) -> u8
    ensures { result ≡ total_of f }
{
    if_size(f.interface) + global_size(f.global)
}

// The octets of an IF_ID, and 0 where there is none.
fn if_octets(i: Option<IfId>) -> [u8; 10]
    ensures { result ≡ filled 10 (if_tlv i) }
{
    let mut o = [0u8; 10];
    if let Some(id) = i {
        o[0] = 1;
        o[1] = 8;
        put_u32(&mut o, 2, id.node);
        put_u32(&mut o, 6, id.interface);
    }
    o
}

// The octets of a Global_ID, and 0 where there is none.
fn global_octets(g: Option<u32>) -> [u8; 6]
    ensures { result ≡ filled 6 (global_tlv g) }
{
    let mut o = [0u8; 6];
    if let Some(global) = g {
        o[0] = 2;
        o[1] = 4;
        put_u32(&mut o, 2, global);
    }
    o
}

// The nine octets before the TLVs.
fn head_octets(f: Fault) -> [u8; 9]
    ensures { result ≡ head_octets f [] }
{
    let flags = u8::from(f.linkdown) * 2 + u8::from(f.removed);
    [
        0x10,
        0,
        0,
        0x58,
        0x10,
        f.kind,
        flags,
        f.refresh,
        total_size(f),
    ]
}

// The octets of the message, and 0 behind them. Where there is no IF_ID, the Global_ID stands in
// its place.
#[tactic(auto, unfolding(crate::specs::Octets::all_octets))]
fn all_octets(f: Fault) -> [u8; 25]
    ensures { result ≡ all_octets f }
{
    let mut o = [0u8; 25];
    put_octets(&mut o, 0, &head_octets(f));
    put_octets(&mut o, 9, &if_octets(f.interface));
    let at = 9 + if_size(f.interface) as usize;
    put_octets(&mut o, at, &global_octets(f.global));
    o
}

// Writes the plain message over the front of b, or refuses, 10 (fields out of range) or 13 (b too short), and then no byte
// changes.
#[tactic(auto, unfolding(octets::specs::Writing::writing))]
pub fn write_fault(b: &mut [u8], f: Fault) -> Result<(), Refusal>
    ensures { record { answer = refusal_in result; buffer = b.new } ≡ writing (field_refusal f) (fault_octets f) b.old }
{
    let o = all_octets(f);
    let size = 9 + total_size(f) as usize;
    write_unless_refused(b, field_refusal(f), &o[..size])
}
