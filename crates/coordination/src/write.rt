// The DHC message, written in its plain form: PW Status, then Dual-Node Switching, and nothing else.
ghost use Rattle.std.specs.Prelude.{◌≡◌, [], length};
ghost use Rattle.octets.specs.Refusals.{refusal_in};
ghost use Rattle.octets.specs.Writing.{Written, writing};
ghost use Rattle.coordination.specs.Octets.{field_refusal, status_tlv, switching_tlv, total_of, head_octets, filled, all_octets, dhc_octets};

use crate::{DHC_CHANNEL, Dhc, NodeSwitching, PwStatus};
use octets::{Refusal, put_octets, put_u16, put_u32, write_unless_refused};

// How many octets a PW Status TLV is.
fn status_size(s: Option<PwStatus>) -> u8
    ensures { result ≡ length (status_tlv s) }
{
    if s.is_some() { 24 } else { 0 }
}

// How many octets a Dual-Node Switching TLV is.
fn switching_size(s: Option<NodeSwitching>) -> u8
    ensures { result ≡ length (switching_tlv s) }
{
    if s.is_some() { 20 } else { 0 }
}

// How many octets the TLVs are.
fn total_size(d: Dhc) -> u8
    ensures { result ≡ total_of d }
{
    status_size(d.status) + switching_size(d.switching)
}

// 10 where there is neither TLV.
pub fn field_refusal(d: Dhc) -> Result<(), Refusal>
    ensures { refusal_in result ≡ field_refusal d }
{
    if d.status.is_none() && d.switching.is_none() {
        return Err(Refusal::OutOfRange);
    }
    Ok(())
}

// The octets of a PW Status, and 0 where there is none.
fn status_octets(status: Option<PwStatus>) -> [u8; 24]
    ensures { result ≡ filled 24 (status_tlv status) }
{
    let mut o = [0u8; 24];
    if let Some(s) = status {
        put_u16(&mut o, 0, 1);
        put_u16(&mut o, 2, 20);
        put_u32(&mut o, 4, s.destination);
        put_u32(&mut o, 8, s.source);
        put_u32(&mut o, 12, s.pw);
        o[19] = u8::from(s.protection);
        o[23] = u8::from(s.degrade) * 2 + u8::from(s.fail);
    }
    o
}

// The octets of a Dual-Node Switching, and 0 where there is none.
fn switching_octets(switching: Option<NodeSwitching>) -> [u8; 20]
    ensures { result ≡ filled 20 (switching_tlv switching) }
{
    let mut o = [0u8; 20];
    if let Some(s) = switching {
        put_u16(&mut o, 0, 2);
        put_u16(&mut o, 2, 16);
        put_u32(&mut o, 4, s.destination);
        put_u32(&mut o, 8, s.source);
        put_u32(&mut o, 12, s.pw);
        o[19] = u8::from(s.switch) * 2 + u8::from(s.protection);
    }
    o
}

// The twelve octets before the TLVs.
fn head_octets(d: Dhc) -> [u8; 12]
    ensures { result ≡ head_octets d [] }
{
    let mut o = [0u8; 12];
    o[0] = 0x10;
    put_u16(&mut o, 2, DHC_CHANNEL);
    put_u32(&mut o, 4, d.id);
    o[9] = total_size(d);
    o
}

// The octets of the message, and 0 behind them. Where there is no PW Status, the Dual-Node Switching
// stands in its place.
#[tactic(auto, unfolding(crate::specs::Octets::all_octets))]
fn all_octets(d: Dhc) -> [u8; 56]
    ensures { result ≡ all_octets d }
{
    let mut o = [0u8; 56];
    put_octets(&mut o, 0, &head_octets(d));
    put_octets(&mut o, 12, &status_octets(d.status));
    let at = 12 + status_size(d.status) as usize;
    put_octets(&mut o, at, &switching_octets(d.switching));
    o
}

// Writes the plain message over the front of b, or refuses, 10 (neither TLV) or 13 (b too short), and then no byte
// changes.
#[tactic(auto, unfolding(octets::specs::Writing::writing))]
pub fn write_dhc(b: &mut [u8], d: Dhc) -> Result<(), Refusal>
    ensures { record { answer = refusal_in result; buffer = b.new } ≡ writing (field_refusal d) (dhc_octets d) b.old }
{
    let o = all_octets(d);
    let size = 12 + total_size(d) as usize;
    write_unless_refused(b, field_refusal(d), &o[..size])
}
