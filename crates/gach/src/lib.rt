// The associated channel header in front of every message (RFC 6428, 3.3).
#![tactic(auto)]

ghost use Rattle.octets.specs.Refusals.{refusal_in};
ghost use Rattle.std.specs.Prelude.{◌≡◌, ◌/◌, ◌%◌, ◌&&◌, eqb};
ghost use Rattle.gach.specs.Header.{header_refusal, channel_refusal, header_place, channel_place};
ghost use Rattle.gach.specs.Kinds.{said, kind_refusal, read_kind};

use octets::{Refusal, get_u16};

pub const CC_CHANNEL: u16 = 0x0022;

pub const CV_CHANNEL: u16 = 0x0023;

pub const FAULT_CHANNEL: u16 = 0x0058;

// What a message is by its header.
#[derive(Clone, Copy, Debug, PartialEq, Eq)]
pub enum Kind {
    ContinuityCheck,
    ConnectivityVerification,
    Fault,
}

// The first octet of a header: nibble 0001, version 0.
fn opens_channel(first: u8) -> bool
    ensures { result ≡ (eqb (first / 16) 1 && eqb (first % 16) 0) }
{
    first / 16 == 1 && first % 16 == 0
}

// 3 for under 4 octets, 4 for another first nibble or version.
#[tactic(auto, unfolding(crate::specs::Header::header_refusal))]
pub fn header_refusal(m: &[u8]) -> Result<(), Refusal>
    ensures { refusal_in result ≡ header_refusal m.now }
{
    if m.len() < 4 {
        return Err(Refusal::TooShort);
    }
    if !opens_channel(m[0]) {
        return Err(Refusal::Header);
    }
    Ok(())
}

// The header's refusal, then 5 for a channel that is not the reader's own.
#[tactic(auto, unfolding(crate::specs::Header::channel_refusal))]
pub fn channel_refusal(m: &[u8], channel: u16) -> Result<(), Refusal>
    ensures { refusal_in result ≡ channel_refusal channel m.now }
{
    header_refusal(m)?;
    if get_u16(m, 2) != channel {
        return Err(Refusal::Channel);
    }
    Ok(())
}

// Where the header goes wrong: the length for 3, octet 0 for 4; else `rest`.
#[tactic(auto, unfolding(crate::specs::Header::header_place))]
pub fn header_place(m: &[u8], rest: usize) -> usize
    ensures { result ≡ header_place m.now rest }
{
    if m.len() < 4 {
        return m.len();
    }
    if !opens_channel(m[0]) {
        return 0;
    }
    rest
}

// The same, and the channel type's place for one that is not the reader's own.
#[tactic(auto, unfolding(crate::specs::Header::channel_place))]
pub fn channel_place(m: &[u8], channel: u16, rest: usize) -> usize
    ensures { result ≡ channel_place channel m.now rest }
{
    let behind = if get_u16(m, 2) == channel { rest } else { 2 };
    header_place(m, behind)
}

// Which of the three kinds a message is; 3, 4 or 5 where it is none.
#[tactic(auto, unfolding(crate::specs::Kinds::kind_refusal, crate::specs::Kinds::read_kind))]
pub fn kind_of(m: &[u8]) -> Result<Kind, Refusal>
    ensures { said result ≡ read_kind m.now }
{
    header_refusal(m)?;
    match get_u16(m, 2) {
        CC_CHANNEL => Ok(Kind::ContinuityCheck),
        CV_CHANNEL => Ok(Kind::ConnectivityVerification),
        FAULT_CHANNEL => Ok(Kind::Fault),
        _ => Err(Refusal::Channel),
    }
}
