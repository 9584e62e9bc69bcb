// A message of any of the three kinds that a session takes. Each kind has its own reader; what they
// read together, and what a DHC message is refused with, is said by the definitions alone, and where a
// message goes wrong by `place_of`.
#![tactic(auto)]

ghost use Rattle.std.specs.Prelude.{◌≡◌};
ghost use Rattle.message.specs.Message.{message_place};

use bfd::Packet;
use coordination::DHC_CHANNEL;
use cv::MepId;
use fault::Fault;
use gach::{CC_CHANNEL, CV_CHANNEL, header_place};
use octets::get_u16;

#[derive(Clone, Copy, Debug, PartialEq, Eq)]
pub enum Message {
    ContinuityCheck(Packet),
    ConnectivityVerification(Packet, MepId),
    FaultManagement(Fault),
}

// Where a message goes wrong, or the octets that it uses, by the reader of its kind; of a DHC message
// by its header, and behind it its length.
#[tactic(auto, unfolding(crate::specs::Message::message_place))]
pub fn place_of(m: &[u8]) -> usize
    ensures { result ≡ message_place m.now }
{
    match get_u16(m, 2) {
        DHC_CHANNEL => header_place(m, m.len()),
        CC_CHANNEL => bfd::cc_place(m),
        CV_CHANNEL => cv::cv_place(m),
        _ => fault::fault_place(m),
    }
}
