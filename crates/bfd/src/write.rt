// Writing: which fields are refused, and the octets.
ghost use Rattle.std.specs.Prelude.{◌≡◌, [], ◌≤◌};
ghost use Rattle.octets.specs.Refusals.{refusal_in};
ghost use Rattle.octets.specs.Writing.{writing};
ghost use Rattle.bfd.specs.Octets.{flags_of, packet_octets, cc_octets, field_refusal, cc_field_refusal};

use crate::Packet;
use crate::read::your_refusal;
use gach::CC_CHANNEL;
use octets::{Refusal, put_u16, put_u32};

// 10 for a field out of its range, or one that the reader would refuse on either channel.
#[tactic(auto, unfolding(crate::specs::Octets::field_refusal))]
pub fn field_refusal(p: Packet) -> Result<(), Refusal>
    ensures { refusal_in result ≡ field_refusal p }
{
    if p.diagnostic >= 32 || p.state >= 4 || p.multiplier == 0 || p.my == 0 {
        return Err(Refusal::OutOfRange);
    }
    Ok(())
}

// The same for a CC, whose reader also refuses some Your Discriminators.
#[tactic(auto, unfolding(crate::specs::Octets::cc_field_refusal))]
pub fn cc_field_refusal(p: Packet) -> Result<(), Refusal>
    ensures { refusal_in result ≡ cc_field_refusal p }
{
    field_refusal(p)?;
    your_refusal(p.state, p.your).map_err(|_| Refusal::OutOfRange)
}

fn flag_octet(p: Packet) -> u8
    ensures { result ≡ flags_of p }
{
    let poll = u8::from(p.poll) * 32;
    let fin = u8::from(p.fin) * 16;
    let independent = u8::from(p.independent) * 8;
    let demand = u8::from(p.demand) * 2;
    p.state % 4 * 64 + poll + fin + independent + demand
}

// The 28 octets of a plain packet on a channel.
#[tactic(auto, unfolding(crate::specs::Octets::packet_octets))]
pub fn packet_octets(p: Packet, channel: u16) -> [u8; 28]
    ensures { result ≡ packet_octets channel p [] }
{
    let mut o = [0u8; 28];
    o[0] = 0x10;
    put_u16(&mut o, 2, channel);
    o[4] = 32 + p.diagnostic % 32;
    o[5] = flag_octet(p);
    o[6] = p.multiplier;
    o[7] = 24;
    put_u32(&mut o, 8, p.my);
    put_u32(&mut o, 12, p.your);
    put_u32(&mut o, 16, p.transmit);
    put_u32(&mut o, 20, p.receive);
    put_u32(&mut o, 24, p.echo);
    o
}

// Writes a plain CC into b, or refuses: 10 for its fields, 13 for a buffer under 28 octets.
#[tactic(auto, unfolding(octets::specs::Writing::writing))]
pub fn write_cc(b: &mut [u8], p: Packet) -> Result<(), Refusal>
    ensures { record { answer = refusal_in result; buffer = b.new } ≡ writing (cc_field_refusal p) (cc_octets p) b.old }
{
    octets::write_unless_refused(b, cc_field_refusal(p), &packet_octets(p, CC_CHANNEL))
}
