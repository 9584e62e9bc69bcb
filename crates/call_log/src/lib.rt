// A log that can be asked: its records one by one, and the record of one label and the clock behind
// them. By value over lent octets; an index is lent beside it.
#![tactic(auto)]

mod reading;
mod records;

use octets::Refusal;
pub use reading::{answer_from, at_start, count_of, entry_fits, follow, read_to};
pub use records::{header_fits, is_cut, is_whole, size_in};
use rules::Report;
use session::Session;

// What is known between two records: the label's record, whose label is 0 where the session is not
// open, and the clock.
#[derive(Clone, Copy)]
pub struct Point {
    pub session: Session,
    pub clock: u64,
}

// Where reading ended: the octets left, how many records more could have been read, and whether a
// record that was read is cut. A mark and no Result: what was read before the cut is wanted too.
#[derive(Clone, Copy)]
pub struct Ended {
    pub point: Point,
    pub left: usize,
    pub spare: usize,
    pub cut: bool,
}

// What is told of a label: its report, and how many entries were looked at.
#[derive(Clone, Copy)]
pub struct Told {
    pub looked: usize,
    pub report: Report,
}

// What is told, or why nothing is.
pub type Answer = Result<Told, Refusal>;
