// The DHC message, read.
ghost use Rattle.std.specs.Prelude.{◌≡◌};
ghost use Rattle.octets.specs.Refusals.{refusal_in, answer_in};
ghost use Rattle.coordination.specs.Message.{front_refusal, tlvs_refusal, refusal_with, status_at, switching_at, fields_with, dhc_refusal, dhc_of, read_dhc};

use crate::tlv::{Tlvs, read_tlvs};
use crate::{DHC_CHANNEL, Dhc, NodeSwitching, PwStatus};
use gach::channel_refusal;
use octets::{Refusal, get_u16, get_u32};

// What a DHC message is refused for before its TLVs are walked.
#[tactic(auto, unfolding(crate::specs::Message::front_refusal))]
fn front_refusal(m: &[u8]) -> Result<(), Refusal>
    ensures { refusal_in result ≡ front_refusal m.now }
{
    channel_refusal(m, DHC_CHANNEL)?;
    let end = 12 + get_u16(m, 8) as usize;
    if m.len() < 12 || m.len() < end {
        return Err(Refusal::TooShort);
    }
    Ok(())
}

// 25 for a wrong TLV, and where neither of the two is there.
#[tactic(auto, unfolding(crate::specs::Message::tlvs_refusal))]
fn tlvs_refusal(t: Tlvs) -> Result<(), Refusal>
    ensures { refusal_in result ≡ tlvs_refusal t }
{
    if t.bad || (t.status == 0 && t.switching == 0) {
        return Err(Refusal::DhcTlvs);
    }
    Ok(())
}

#[tactic(auto, unfolding(crate::specs::Message::refusal_with))]
fn refusal_with(m: &[u8], t: Tlvs) -> Result<(), Refusal>
    ensures { refusal_in result ≡ refusal_with m.now t }
{
    front_refusal(m).and(tlvs_refusal(t))
}

// The PW Status TLV at a place; place 0 is none.
#[tactic(auto, unfolding(crate::specs::Message::status_at))]
fn status_at(m: &[u8], place: u32) -> Option<PwStatus>
    ensures { result ≡ status_at m.now place }
{
    if place == 0 {
        return None;
    }
    let at = place as usize;
    let service = get_u32(m, at + 20);
    Some(PwStatus {
        destination: get_u32(m, at + 4),
        source: get_u32(m, at + 8),
        pw: get_u32(m, at + 12),
        protection: get_u32(m, at + 16) % 2 == 1,
        degrade: service / 2 % 2 == 1,
        fail: service % 2 == 1,
    })
}

// The Dual-Node Switching TLV at a place; place 0 is none.
#[tactic(auto, unfolding(crate::specs::Message::switching_at))]
fn switching_at(m: &[u8], place: u32) -> Option<NodeSwitching>
    ensures { result ≡ switching_at m.now place }
{
    if place == 0 {
        return None;
    }
    let at = place as usize;
    let flags = get_u32(m, at + 16);
    Some(NodeSwitching {
        destination: get_u32(m, at + 4),
        source: get_u32(m, at + 8),
        pw: get_u32(m, at + 12),
        switch: flags / 2 % 2 == 1,
        protection: flags % 2 == 1,
    })
}

fn fields_with(m: &[u8], t: Tlvs) -> Dhc
    ensures { result ≡ fields_with m.now t }
{
    Dhc {
        id: get_u32(m, 4),
        status: status_at(m, t.status),
        switching: switching_at(m, t.switching),
    }
}

// The first refusal of a DHC message.
#[tactic(auto, unfolding(crate::specs::Message::dhc_refusal))]
pub fn dhc_refusal(m: &[u8]) -> Result<(), Refusal>
    ensures { refusal_in result ≡ dhc_refusal m.now }
{
    refusal_with(m, read_tlvs(m, get_u16(m, 8)))
}

// The fields of a DHC message, computed also where it is refused.
#[tactic(auto, unfolding(crate::specs::Message::dhc_of))]
pub fn dhc_fields(m: &[u8]) -> Dhc
    ensures { result ≡ dhc_of m.now }
{
    fields_with(m, read_tlvs(m, get_u16(m, 8)))
}

// A DHC message, read: its fields, or the first refusal. Octets behind it are not looked at.
#[tactic(auto, unfolding(crate::specs::Message::read_dhc, crate::specs::Message::dhc_refusal, crate::specs::Message::dhc_of))]
pub fn read_dhc(m: &[u8]) -> Result<Dhc, Refusal>
    ensures { answer_in result ≡ read_dhc m.now }
{
    let t = read_tlvs(m, get_u16(m, 8));
    refusal_with(m, t)?;
    Ok(fields_with(m, t))
}
