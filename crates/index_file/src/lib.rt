// The index of a log as a file: its octets written and read, built from the log block by block, and
// asked with no more of the log than the records behind one entry.
//
// A head of 24 octets: the mark `TPX`, 16-bit version 1, three zero bytes, the octets of the log, the
// label, and the number of entries. Then the entries, 252 octets each: the clock, the place of the next
// record in the log, and the label's record, field by field but its group: a log leaves no record that
// has one. Numbers are big-endian.
#![tactic(auto)]

mod blocks;
mod numbered;
mod reading;
mod seeking;
mod words;
mod writing;

pub use blocks::{block, finish, start};
use call_log::Point;
pub use numbered::Numbered;
use octets::Refusal;
pub use reading::{entry_in, head_in};
pub use seeking::{asked_from, place_of, sought_in};
use session::Session;
pub use words::put_answer;
pub use writing::{entry_octets, head_octets};

// An entry: the label's record and the clock there, and the place of the next record in the log.
#[derive(Clone, Copy)]
pub struct Entry {
    pub clock: u64,
    pub place: u64,
    pub session: Session,
}

// The entry that is used, and how many were looked at.
#[derive(Clone, Copy)]
pub struct Used {
    pub entry: Entry,
    pub looked: usize,
}

// What is sought in an index file, or why it is not found.
pub type Sought<N = Refusal> = Result<Used, N>;

// Whether another entry is to be put, the log has ended, or it is refused.
#[derive(Clone, Copy, Debug, PartialEq, Eq)]
pub enum Stage<N = Refusal> {
    More,
    Over,
    Refused(N),
}

// How far a file is built: what stands before the next entry, the place of the next record of the log
// there, how many entries there are, the label, and whether it goes on.
#[derive(Clone, Copy)]
pub struct Indexing<N = Refusal> {
    pub point: Point,
    pub place: u64,
    pub count: usize,
    pub label: u32,
    pub stage: Stage<N>,
}
