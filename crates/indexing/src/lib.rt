// The index of a log for one label: its records filled in, entry by entry. Clocks, places and records
// lie in three lent slices, and not in one row of entries: who calls lends them so, there is no heap, and
// the definitions `build_of` and `ask_of` speak of the three.
#![tactic(auto)]

mod asking;
mod begin;
mod building;
mod entries;
mod judging;
mod looking;
mod numbers;

pub use asking::{answer_at, ask_refusal, head_fits};
pub use begin::begin_fill;
pub use building::build;
use call_log::Point;
pub use entries::{fill, fill_one};
pub use judging::{Ranged, judged};
pub use looking::ask;
pub use numbers::fill_numbers;

// How far an index is filled in: what stands before the entry that comes next, the place of the next
// record of the log there, that entry, how many there are, and the label.
#[derive(Clone, Copy)]
pub struct Filling {
    pub point: Point,
    pub place: usize,
    pub at: usize,
    pub count: usize,
    pub label: u32,
}

// What an index says of itself: the octets of its log, its label, and how many entries it has.
#[derive(Clone, Copy, Debug, Default, PartialEq, Eq)]
pub struct IndexHead {
    pub length: u64,
    pub label: u32,
    pub count: u32,
}
