// Messages for a host: their fields in numbers alone, read from octets and written to them.
#![tactic(auto)]

mod fields;
mod readers;
mod writers;

pub use fields::{FaultFields, PacketFields};
pub use readers::{
    CcRead, CvRead, FaultRead, MepIdRead, read_cc, read_cv, read_fault, read_mep_id,
};
pub use writers::{write_cc, write_cv, write_fault};
