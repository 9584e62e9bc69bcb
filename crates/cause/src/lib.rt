// Why is this so? The record that accounts for a crossing, a loss, a condition or an alarm held back,
// how old it is and what ends it. Beside the record of the session that is asked about six record
// numbers are kept: of what it was timed from, of its last crossed message, and of the message in
// each of its four condition places. All dates are in the session's own record.
#![tactic(auto)]

mod answer;
mod notes;

pub use answer::{Candidate, best_of_key, best_standing, cause_from};
pub use notes::{anew, marks_if, note};
use rules::Key;

// What is asked about.
#[derive(Clone, Copy)]
pub enum Thing {
    Crossing,
    Loss,
    Condition(Key),
    HeldBack,
}

// The number of the record that accounts for it, that record's reading and its age at the clock, and
// the end: the first reading at which the thing no longer stands, of a loss the first at which it
// stood.
#[derive(Clone, Copy, Debug, PartialEq, Eq)]
pub struct Cause {
    pub number: u64,
    pub reading: u64,
    pub age: u64,
    pub end: u64,
}

// What the detection time is timed from.
#[derive(Clone, Copy, Debug, PartialEq, Eq)]
pub enum Timed {
    Opening,
    Unlock,
    Cc,
    Cv,
}

// The record numbers of a session's marks, 0 where there is none; the octets of its last crossed
// message; and by what it was timed: 0 opening, 1 unlock, 2 CC, 3 CV. Numbers, and no Options or enums: the definitions of
// `FromMarks` and `record_noted` speak of each of them, a noting of a record that is no message among them.
#[derive(Clone, Copy)]
pub struct Marks {
    pub timed: u64,
    pub crossed: u64,
    pub first: u64,
    pub second: u64,
    pub third: u64,
    pub fourth: u64,
    pub size: usize,
    pub by: u8,
}

// What a record notes, and whether it is a crossed message, whose octets are to be kept. A mark and no Option: the marks
// stand either way.
#[derive(Clone, Copy)]
pub struct Noted {
    pub marks: Marks,
    pub crossed: bool,
}
