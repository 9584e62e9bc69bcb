// The fields of a message in numbers alone, so that every bit pattern that a host can hand in is a
// value: a mark is 0 or 1, and what is above is out of range (10).
ghost use Rattle.std.specs.Prelude.{◌≡◌};
ghost use Rattle.octets.specs.Refusals.{refusal_in};
ghost use Rattle.fields.specs.Fields.{packet_fields, packet_from, packet_marks, fault_fields, if_id_from, global_id_from, fault_from, marked_refusal, fault_marks};

use bfd::Packet;
use fault::{Fault, IfId};
use octets::Refusal;

// A BFD control packet: as `bfd::Packet`, with the marks P, F, C and D as numbers.
#[repr(C)]
#[derive(Clone, Copy)]
pub struct PacketFields {
    pub my: u32,
    pub your: u32,
    pub transmit: u32,
    pub receive: u32,
    pub echo: u32,
    pub diagnostic: u8,
    pub state: u8,
    pub multiplier: u8,
    pub poll: u8,
    pub fin: u8,
    pub independent: u8,
    pub demand: u8,
}

// A fault message: as `fault::Fault`, with a mark for each of IF_ID and Global_ID. Behind a mark of
// 0 there is nothing: the numbers are 0 when read, and others are refused when written (10), since
// the message would lose them.
#[repr(C)]
#[derive(Clone, Copy)]
pub struct FaultFields {
    pub node: u32,
    pub interface: u32,
    pub global: u32,
    pub kind: u8,
    pub linkdown: u8,
    pub removed: u8,
    pub refresh: u8,
    pub ifid: u8,
    pub globalid: u8,
}

pub fn packet_fields(p: Packet) -> PacketFields
    ensures { result ≡ packet_fields p }
{
    PacketFields {
        my: p.my,
        your: p.your,
        transmit: p.transmit,
        receive: p.receive,
        echo: p.echo,
        diagnostic: p.diagnostic,
        state: p.state,
        multiplier: p.multiplier,
        poll: u8::from(p.poll),
        fin: u8::from(p.fin),
        independent: u8::from(p.independent),
        demand: u8::from(p.demand),
    }
}

pub fn packet_from(f: PacketFields) -> Packet
    ensures { result ≡ packet_from f }
{
    Packet {
        diagnostic: f.diagnostic,
        state: f.state,
        poll: f.poll == 1,
        fin: f.fin == 1,
        independent: f.independent == 1,
        demand: f.demand == 1,
        multiplier: f.multiplier,
        my: f.my,
        your: f.your,
        transmit: f.transmit,
        receive: f.receive,
        echo: f.echo,
    }
}

// 10 for a mark above 1.
#[tactic(auto, unfolding(crate::specs::Fields::packet_marks))]
pub fn packet_marks(f: PacketFields) -> Result<(), Refusal>
    ensures { refusal_in result ≡ packet_marks f }
{
    if f.poll > 1 || f.fin > 1 || f.independent > 1 || f.demand > 1 {
        return Err(Refusal::OutOfRange);
    }
    Ok(())
}

pub fn fault_fields(f: Fault) -> FaultFields
    ensures { result ≡ fault_fields f }
{
    let key = rules::key_of(f);
    FaultFields {
        node: key.node,
        interface: key.interface,
        global: key.global,
        kind: f.kind,
        linkdown: u8::from(f.linkdown),
        removed: u8::from(f.removed),
        refresh: f.refresh,
        ifid: key.present,
        globalid: key.carrier,
    }
}

fn if_id_from(present: u8, node: u32, interface: u32) -> Option<IfId>
    ensures { result ≡ if_id_from present node interface }
{
    (present == 1).then_some(IfId { node, interface })
}

fn global_id_from(present: u8, global: u32) -> Option<u32>
    ensures { result ≡ global_id_from present global }
{
    (present == 1).then_some(global)
}

pub fn fault_from(f: FaultFields) -> Fault
    ensures { result ≡ fault_from f }
{
    Fault {
        kind: f.kind,
        linkdown: f.linkdown == 1,
        removed: f.removed == 1,
        refresh: f.refresh,
        interface: if_id_from(f.ifid, f.node, f.interface),
        global: global_id_from(f.globalid, f.global),
    }
}

// 10 for a mark above 1, and for a number that is not 0 behind a mark of 0.
#[tactic(auto, unfolding(crate::specs::Fields::marked_refusal))]
fn marked_refusal(mark: u8, number: u32) -> Result<(), Refusal>
    ensures { refusal_in result ≡ marked_refusal mark number }
{
    if mark > 1 || (mark != 1 && number != 0) {
        return Err(Refusal::OutOfRange);
    }
    Ok(())
}

// 10 for a mark above 1, or a number that would be lost.
#[tactic(auto, unfolding(crate::specs::Fields::fault_marks))]
pub fn fault_marks(f: FaultFields) -> Result<(), Refusal>
    ensures { refusal_in result ≡ fault_marks f }
{
    if f.linkdown > 1 || f.removed > 1 {
        return Err(Refusal::OutOfRange);
    }
    marked_refusal(f.ifid, f.node)?;
    marked_refusal(f.ifid, f.interface)?;
    marked_refusal(f.globalid, f.global)
}
