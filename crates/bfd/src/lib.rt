// The BFD control packet (RFC 5880, 4.1) and the continuity check message that carries it.
#![tactic(auto)]

mod place;
mod read;
mod write;

pub use place::{body_place, cc_place};
pub use read::{body_refusal, cc_body_refusal, cc_refusal, control_refusal, packet_of, read_cc};
pub use write::{cc_field_refusal, field_refusal, packet_octets, write_cc};

// The fields of a packet: state 0 ADMIN DOWN, 1 DOWN, 2 INIT, 3 UP; the flags P, F, C and D; both
// discriminators; the desired transmit, required receive and required echo intervals.
#[derive(Clone, Copy, Debug, PartialEq, Eq)]
pub struct Packet {
    pub diagnostic: u8,
    pub state: u8,
    pub poll: bool,
    pub fin: bool,
    pub independent: bool,
    pub demand: bool,
    pub multiplier: u8,
    pub my: u32,
    pub your: u32,
    pub transmit: u32,
    pub receive: u32,
    pub echo: u32,
}
