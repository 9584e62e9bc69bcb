// The fault message, read.
ghost use Rattle.std.specs.Prelude.{◌≡◌};
ghost use Rattle.octets.specs.Refusals.{number_of, refusal_in, placed_in};
ghost use Rattle.fault.specs.Message.{range_refusal, head_refusal, front_refusal, tlvs_refusal, refusal_with, fields_with, fault_refusal, fault_of, fault_reading};

use crate::place::place_with;
use crate::tlv::{Tlvs, read_tlvs};
use crate::{Fault, IfId};
use gach::{FAULT_CHANNEL, channel_refusal};
use octets::{Misread, Refusal, get_u8};

// The refusal for a type other than 1 and 2 or a refresh time other than 1 to 20 seconds.
#[tactic(auto, unfolding(crate::specs::Message::range_refusal))]
pub(crate) fn range_refusal(refusal: Refusal, kind: u8, refresh: u8) -> Result<(), Refusal>
    ensures { refusal_in result ≡ range_refusal (number_of refusal) kind refresh }
{
    if kind < 1 || kind > 2 || refresh < 1 || refresh > 20 {
        return Err(refusal);
    }
    Ok(())
}

// 8 for a version, a type or a refresh time that the rules do not know.
#[tactic(auto, unfolding(crate::specs::Message::head_refusal))]
fn head_refusal(m: &[u8]) -> Result<(), Refusal>
    ensures { refusal_in result ≡ head_refusal m.now }
{
    if get_u8(m, 4) / 16 != 1 {
        return Err(Refusal::FaultMessage);
    }
    range_refusal(Refusal::FaultMessage, get_u8(m, 5), get_u8(m, 7))
}

// What a fault message is refused for before its TLVs are walked.
#[tactic(auto, unfolding(crate::specs::Message::front_refusal))]
fn front_refusal(m: &[u8]) -> Result<(), Refusal>
    ensures { refusal_in result ≡ front_refusal m.now }
{
    channel_refusal(m, FAULT_CHANNEL)?;
    if m.len() < 9 {
        return Err(Refusal::TooShort);
    }
    head_refusal(m)?;
    let end = 9 + get_u8(m, 8) as usize;
    if m.len() < end {
        return Err(Refusal::TooShort);
    }
    Ok(())
}

// 8 where an octet of a TLV is wrong.
fn tlvs_refusal(t: Tlvs) -> Result<(), Refusal>
    ensures { refusal_in result ≡ tlvs_refusal t }
{
    if t.bad != 0 {
        return Err(Refusal::FaultMessage);
    }
    Ok(())
}

#[tactic(auto, unfolding(crate::specs::Message::refusal_with))]
fn refusal_with(m: &[u8], t: Tlvs) -> Result<(), Refusal>
    ensures { refusal_in result ≡ refusal_with m.now t }
{
    front_refusal(m).and(tlvs_refusal(t))
}

#[tactic(auto, unfolding(crate::specs::Message::fields_with))]
fn fields_with(m: &[u8], t: Tlvs) -> Fault
    ensures { result ≡ fields_with m.now t }
{
    let flags = get_u8(m, 6);
    Fault {
        kind: get_u8(m, 5),
        linkdown: flags / 2 % 2 == 1,
        removed: flags % 2 == 1,
        refresh: get_u8(m, 7),
        interface: t.ifid.then_some(IfId {
            node: t.node,
            interface: t.interface,
        }),
        global: t.globalid.then_some(t.global),
    }
}

// The first refusal of a fault message.
#[tactic(auto, unfolding(crate::specs::Message::fault_refusal))]
pub fn fault_refusal(m: &[u8]) -> Result<(), Refusal>
    ensures { refusal_in result ≡ fault_refusal m.now }
{
    refusal_with(m, read_tlvs(m, get_u8(m, 8)))
}

// The fields of a fault message, computed also where it is refused.
#[tactic(auto, unfolding(crate::specs::Message::fault_of))]
pub fn fault_fields(m: &[u8]) -> Fault
    ensures { result ≡ fault_of m.now }
{
    fields_with(m, read_tlvs(m, get_u8(m, 8)))
}

// A fault message, read: its fields and the octets used, or the first refusal and where the message went wrong. Octets
// behind it are not looked at.
#[tactic(auto, unfolding(crate::specs::Message::read_fault, crate::specs::Message::fault_refusal, crate::specs::Message::fault_of, crate::specs::Message::fault_place))]
pub fn read_fault(m: &[u8]) -> Result<(Fault, usize), Misread>
    ensures { placed_in result ≡ fault_reading m.now }
{
    let t = read_tlvs(m, get_u8(m, 8));
    let place = place_with(m, t);
    match refusal_with(m, t) {
        Ok(()) => Ok((fields_with(m, t), place)),
        Err(refusal) => Err(Misread { refusal, place }),
    }
}
