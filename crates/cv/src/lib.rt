// The connectivity verification message: a BFD control packet and the source MEP-ID behind it.
#![tactic(auto)]

mod form;
mod mep_id;
mod place;
mod read;
mod words;
mod write;

pub use form::mep_fits;
pub use mep_id::{mep_id_at, mep_octets, mep_size, same_mep_id};
pub use place::cv_place;
pub use read::{cv_body_refusal, cv_refusal, mep_part, read_cv, read_mep_id, source_of};
pub use write::{cv_field_refusal, cv_octets, write_cv};

// The octets of an attachment group identifier, 8 in a number and the first one highest.
#[repr(C)]
#[derive(Clone, Copy, Debug, PartialEq, Eq)]
pub struct Agi {
    pub first: u64,
    pub second: u64,
    pub third: u64,
    pub fourth: u64,
}

// A maintenance end point: kind 0 is a Section (Global_ID, Node, Interface), 1 an LSP (Global_ID,
// Node, Tunnel and LSP, 16 bits each, held as one number), 2 a pseudowire (Global_ID, Node, AC_ID,
// and an AGI of 0 to 32 octets, with its type in `group` and its length in `size`). What a kind
// does not use, and the octets behind the AGI's length, are nobody's field.
#[repr(C)]
#[derive(Clone, Copy, Debug, PartialEq, Eq)]
pub struct MepId {
    pub agi: Agi,
    pub global: u32,
    pub node: u32,
    pub local: u32,
    pub kind: u16,
    pub group: u8,
    pub size: u8,
}

// What a CV carries.
#[derive(Clone, Copy, Debug, PartialEq, Eq)]
pub struct Verification {
    pub packet: bfd::Packet,
    pub mep: MepId,
}

// A written CV: the first `count` octets. A length stands beside the buffer, since no memory is allocated.
#[derive(Clone, Copy, Debug, PartialEq, Eq)]
pub struct CvOctets {
    pub octets: [u8; 78],
    pub count: usize,
}
