// What each call answers and does, once it is known whether the table is in order and where the
// label stands: by value, on the one record that it concerns. What the lent row adds is where that
// record comes from and where it goes.
#![tactic(auto)]

mod arrived;
mod asked;
mod decision;
mod effect;
mod opened;

pub use arrived::{bfd_met, bfd_said, brings_fault, fault_met, fault_said, met_at, unmet};
pub use asked::{aimed_at, target};
use cv::CvOctets;
pub use effect::{acted_by, head_at, no_report, step};
pub use opened::{opened_by, opening_step, opening_target};
use rules::{Report, Settings};
use table::Head;

// The calls that bring numbers alone: of a buffer its length goes in.
#[derive(Clone, Copy)]
pub enum Request {
    Tick(u64),
    Close(u32, u64),
    Lock(u32, u64),
    Unlock(u32, u64),
    ReportOn(u32),
    WriteCc(u32, usize),
    WriteCv(u32, usize),
}

// An open.
#[derive(Clone, Copy)]
pub struct Opening {
    pub settings: Settings,
    pub reading: u64,
}

// A message that arrives at a reading: clock and set, the place of its label and whether the table
// is in order, and where the message lies among the octets that are lent.
#[derive(Clone, Copy)]
pub struct Arrival {
    pub head: Head,
    pub reading: u64,
    pub place: usize,
    pub from: usize,
    pub size: usize,
    pub sound: bool,
}

// What a call tells beside its number: the report of a report, the octets of a write.
#[derive(Clone, Copy)]
pub struct Told {
    pub report: Report,
    pub cc: [u8; 28],
    pub cv: CvOctets,
}

// What comes of a call: clock and set afterwards, what it tells, the answer. The answer is a number, 0 where nothing is
// refused: the C interface returns it, and the theorem that a call is the table's step (`Steps`) speaks of it.
#[derive(Clone, Copy)]
pub struct Outcome {
    pub head: Head,
    pub told: Told,
    pub answer: u32,
}

// The outcome, and the place that is stored to; past the row's end nothing is stored.
#[derive(Clone, Copy)]
pub struct Stepped {
    pub outcome: Outcome,
    pub place: usize,
}
