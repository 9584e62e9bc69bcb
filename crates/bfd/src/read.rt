// Reading: the refusals in the paper's order, and the fields.
ghost use Rattle.std.specs.Prelude.{◌≡◌, ◌/◌};
ghost use Rattle.octets.specs.Refusals.{refusal_in, placed_in};
ghost use Rattle.bfd.specs.Packet.{packet_of};
ghost use Rattle.bfd.specs.Reception.{rule_refusal, your_refusal, body_refusal, control_refusal, cc_body_refusal, cc_refusal, end_refusal, cc_reading};

use crate::Packet;
use crate::place::cc_place;
use gach::CC_CHANNEL;
use octets::{Misread, Refusal, get_u8, get_u32};

// The reception rules that hold on both channels.
#[tactic(auto, unfolding(crate::specs::Reception::rule_refusal))]
fn rule_refusal(version: u8, flags: u8, multiplier: u8, length: u8, my: u32) -> Result<(), Refusal>
    ensures { refusal_in result ≡ rule_refusal version flags multiplier length my }
{
    if version / 32 != 1 || flags / 4 % 2 != 0 || flags % 2 != 0 {
        return Err(Refusal::ControlPacket);
    }
    if multiplier == 0 || length < 24 || my == 0 {
        return Err(Refusal::ControlPacket);
    }
    Ok(())
}

// The rule on Your Discriminator, for CC alone.
#[tactic(auto, unfolding(crate::specs::Reception::your_refusal))]
pub fn your_refusal(state: u8, your: u32) -> Result<(), Refusal>
    ensures { refusal_in result ≡ your_refusal state your }
{
    if your == 0 && state >= 2 {
        return Err(Refusal::ControlPacket);
    }
    Ok(())
}

// The refusals behind the header on either BFD channel: the length first, so that no octet below it
// is asked for twice.
pub fn body_refusal(m: &[u8]) -> Result<(), Refusal>
    ensures { refusal_in result ≡ body_refusal m.now }
{
    if m.len() < 28 {
        return Err(Refusal::TooShort);
    }
    rule_refusal(m[4], m[5], m[6], m[7], get_u32(m, 8))
}

// What a message on a BFD channel is refused for on its first 28 octets.
#[tactic(auto, unfolding(crate::specs::Reception::control_refusal))]
pub fn control_refusal(m: &[u8], channel: u16) -> Result<(), Refusal>
    ensures { refusal_in result ≡ control_refusal channel m.now }
{
    gach::channel_refusal(m, channel)?;
    body_refusal(m)
}

// Behind the rules of both channels, for a CC alone: its Your Discriminator, then a Length past the end.
#[tactic(auto, unfolding(crate::specs::Reception::end_refusal))]
fn end_refusal(m: &[u8]) -> Result<(), Refusal>
    ensures { refusal_in result ≡ end_refusal m.now }
{
    let your = your_refusal(get_u8(m, 5) / 64, get_u32(m, 12));
    let past = if m.len() < 4 + get_u8(m, 7) as usize {
        Err(Refusal::TooShort)
    } else {
        Ok(())
    };
    your.and(past)
}

// What a message whose header is a CC's is refused for.
#[tactic(auto, unfolding(crate::specs::Reception::cc_body_refusal))]
pub fn cc_body_refusal(m: &[u8]) -> Result<(), Refusal>
    ensures { refusal_in result ≡ cc_body_refusal m.now }
{
    body_refusal(m)?;
    end_refusal(m)
}

// What a CC is refused for.
#[tactic(auto, unfolding(crate::specs::Reception::cc_refusal))]
pub fn cc_refusal(m: &[u8]) -> Result<(), Refusal>
    ensures { refusal_in result ≡ cc_refusal m.now }
{
    control_refusal(m, CC_CHANNEL)?;
    end_refusal(m)
}

// The fields, whether or not the message is refused; a field past the end reads as 0.
#[tactic(auto, unfolding(crate::specs::Packet::packet_of))]
pub fn packet_of(m: &[u8]) -> Packet
    ensures { result ≡ packet_of m.now }
{
    let version = get_u8(m, 4);
    let flags = get_u8(m, 5);
    Packet {
        diagnostic: version % 32,
        state: flags / 64,
        poll: flags / 32 % 2 == 1,
        fin: flags / 16 % 2 == 1,
        independent: flags / 8 % 2 == 1,
        demand: flags / 2 % 2 == 1,
        multiplier: get_u8(m, 6),
        my: get_u32(m, 8),
        your: get_u32(m, 12),
        transmit: get_u32(m, 16),
        receive: get_u32(m, 20),
        echo: get_u32(m, 24),
    }
}

// Reads a CC: its fields and the octets used, or the first refusal and where the message went wrong.
#[tactic(auto, unfolding(crate::specs::Reception::read_cc))]
pub fn read_cc(m: &[u8]) -> Result<(Packet, usize), Misread>
    ensures { placed_in result ≡ cc_reading m.now }
{
    let place = cc_place(m);
    match cc_refusal(m) {
        Ok(()) => Ok((packet_of(m), place)),
        Err(refusal) => Err(Misread { refusal, place }),
    }
}
