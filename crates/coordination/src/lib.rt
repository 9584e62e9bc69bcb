// The dual-homing coordination (DHC) message of RFC 8185: read, and written in its plain form.
#![tactic(auto)]

mod numbers;
mod read;
mod tlv;
mod write;

pub use numbers::{
    DhcNumbers, DhcRead, StatusNumbers, SwitchingNumbers, dhc_from, dhc_marks, dhc_numbers,
    read_dhc_numbers, write_dhc_numbers,
};
pub use read::{dhc_fields, dhc_refusal, read_dhc};
pub use write::{field_refusal, write_dhc};

pub const DHC_CHANNEL: u16 = 0x0009;

// What a PW Status TLV says: Destination and Source Node_ID, DNI-PW ID, then P (the source is the protection PE), D
// (signal degrade) and F (signal fail).
#[derive(Clone, Copy, Debug, PartialEq, Eq)]
pub struct PwStatus {
    pub destination: u32,
    pub source: u32,
    pub pw: u32,
    pub protection: bool,
    pub degrade: bool,
    pub fail: bool,
}

// What a Dual-Node Switching TLV says: Destination and Source Node_ID, DNI-PW ID, then S (switch to the protection PW)
// and P (the source is the protection PE).
#[derive(Clone, Copy, Debug, PartialEq, Eq)]
pub struct NodeSwitching {
    pub destination: u32,
    pub source: u32,
    pub pw: u32,
    pub switch: bool,
    pub protection: bool,
}

// What a DHC message says, with the two TLVs where they are there; id is the Dual-Homing Group ID.
#[derive(Clone, Copy, Debug, PartialEq, Eq)]
pub struct Dhc {
    pub id: u32,
    pub status: Option<PwStatus>,
    pub switching: Option<NodeSwitching>,
}
