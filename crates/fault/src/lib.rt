// The fault message of RFC 6427: read, and written in its plain form.
#![tactic(auto)]

mod place;
mod read;
mod tlv;
mod write;

pub use place::fault_place;
pub use read::{fault_fields, fault_refusal, read_fault};
pub use write::{field_refusal, write_fault};

// What an IF_ID TLV says.
#[derive(Clone, Copy, Debug, PartialEq, Eq)]
pub struct IfId {
    pub node: u32,
    pub interface: u32,
}

// What a fault message says, with the IF_ID and the Global_ID where they are there. kind is 1 for AIS and 2 for LKR, and of a
// refused message any octet (`fault_of`); linkdown is the L flag, link down;
// removed is the R flag, the condition is removed; refresh is in seconds.
#[derive(Clone, Copy, Debug, PartialEq, Eq)]
pub struct Fault {
    pub kind: u8,
    pub linkdown: bool,
    pub removed: bool,
    pub refresh: u8,
    pub interface: Option<IfId>,
    pub global: Option<u32>,
}
