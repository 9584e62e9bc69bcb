// The readers of messages, for a host: an answer is one struct of numbers, 0 and the fields, or a
// refusal and noughts; and in either case a place, where the message went wrong or the octets used.
ghost use Rattle.std.specs.Prelude.{◌≡◌};
ghost use Rattle.octets.specs.Refusals.{answer_in, placed_in};
ghost use Rattle.bfd.specs.Reception.{cc_reading};
ghost use Rattle.cv.specs.MepId.{no_agi, read_mep};
ghost use Rattle.fault.specs.Message.{fault_reading};
ghost use Rattle.fields.specs.Messages.{no_packet, no_mep, no_fault, cc_read, cv_read, cv_read_of, mep_read, fault_read};

use crate::fields::{FaultFields, PacketFields, fault_fields, packet_fields};
use bfd::Packet;
use cv::{Agi, MepId, Verification};
use fault::Fault;
use octets::{Misread, Refusal};

#[repr(C)]
#[derive(Clone, Copy)]
pub struct CcRead {
    pub place: u64,
    pub answer: u32,
    pub packet: PacketFields,
}

// A CV's packet and MEP-ID, and the part of the message that is its MEP-ID, type to end: the place
// from which it stands, and its octets, 16, or 18 to 50.
#[repr(C)]
#[derive(Clone, Copy)]
pub struct CvRead {
    pub place: u64,
    pub answer: u32,
    pub part: u32,
    pub octets: u32,
    pub packet: PacketFields,
    pub mep: MepId,
}

// A MEP-ID alone.
#[repr(C)]
#[derive(Clone, Copy)]
pub struct MepIdRead {
    pub answer: u32,
    pub mep: MepId,
}

#[repr(C)]
#[derive(Clone, Copy)]
pub struct FaultRead {
    pub place: u64,
    pub answer: u32,
    pub fault: FaultFields,
}

fn no_packet() -> PacketFields
    ensures { result ≡ no_packet }
{
    PacketFields {
        my: 0,
        your: 0,
        transmit: 0,
        receive: 0,
        echo: 0,
        diagnostic: 0,
        state: 0,
        multiplier: 0,
        poll: 0,
        fin: 0,
        independent: 0,
        demand: 0,
    }
}

fn no_agi() -> Agi
    ensures { result ≡ no_agi }
{
    Agi {
        first: 0,
        second: 0,
        third: 0,
        fourth: 0,
    }
}

fn no_mep() -> MepId
    ensures { result ≡ no_mep }
{
    MepId {
        agi: no_agi(),
        global: 0,
        node: 0,
        local: 0,
        kind: 0,
        group: 0,
        size: 0,
    }
}

fn no_fault() -> FaultFields
    ensures { result ≡ no_fault }
{
    FaultFields {
        node: 0,
        interface: 0,
        global: 0,
        kind: 0,
        linkdown: 0,
        removed: 0,
        refresh: 0,
        ifid: 0,
        globalid: 0,
    }
}

fn cc_read(a: Result<(Packet, usize), Misread>) -> CcRead
    ensures { result ≡ cc_read (placed_in a) }
{
    match a {
        Ok((packet, place)) => CcRead {
            place: place as u64,
            answer: 0,
            packet: packet_fields(packet),
        },
        Err(e) => CcRead {
            place: e.place as u64,
            answer: u32::from(e.refusal),
            packet: no_packet(),
        },
    }
}

fn cv_read(part: u32, octets: u32, a: Result<(Verification, usize), Misread>) -> CvRead
    ensures { result ≡ cv_read part octets (placed_in a) }
{
    match a {
        Ok((v, place)) => CvRead {
            place: place as u64,
            answer: 0,
            part,
            octets,
            packet: packet_fields(v.packet),
            mep: v.mep,
        },
        Err(e) => CvRead {
            place: e.place as u64,
            answer: u32::from(e.refusal),
            part: 0,
            octets: 0,
            packet: no_packet(),
            mep: no_mep(),
        },
    }
}

fn mep_read(a: Result<MepId, Refusal>) -> MepIdRead
    ensures { result ≡ mep_read (answer_in a) }
{
    match a {
        Ok(mep) => MepIdRead { answer: 0, mep },
        Err(refusal) => MepIdRead {
            answer: u32::from(refusal),
            mep: no_mep(),
        },
    }
}

fn fault_read(a: Result<(Fault, usize), Misread>) -> FaultRead
    ensures { result ≡ fault_read (placed_in a) }
{
    match a {
        Ok((fault, place)) => FaultRead {
            place: place as u64,
            answer: 0,
            fault: fault_fields(fault),
        },
        Err(e) => FaultRead {
            place: e.place as u64,
            answer: u32::from(e.refusal),
            fault: no_fault(),
        },
    }
}

// Reads a CC.
pub fn read_cc(message: &[u8]) -> CcRead
    ensures { result ≡ cc_read (cc_reading message.now) }
{
    cc_read(bfd::read_cc(message))
}

// Reads a CV.
pub fn read_cv(message: &[u8]) -> CvRead
    ensures { result ≡ cv_read_of message.now }
{
    let part = 4 + octets::get_u8(message, 7) as u32;
    let length = octets::get_u16(message, part as usize + 2);
    cv_read(part, 4 + length as u32, cv::read_cv(message))
}

// Reads a MEP-ID alone, from its octets, type to end.
#[tactic(auto, unfolding(cv::specs::MepId::read_mep))]
pub fn read_mep_id(octets: &[u8]) -> MepIdRead
    ensures { result ≡ mep_read (read_mep octets.now) }
{
    mep_read(cv::read_mep_id(octets))
}

// Reads a fault message.
pub fn read_fault(message: &[u8]) -> FaultRead
    ensures { result ≡ fault_read (fault_reading message.now) }
{
    fault_read(fault::read_fault(message))
}
