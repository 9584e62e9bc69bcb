// The scan of a row: each open record by itself, its keys noted; then the keys, no two alike. What
// the pass over the occupied places knows, by value. The loop over a lent row stands above this crate.
#![tactic(auto)]

mod keys;
mod passing;

pub use keys::distinct;
pub use passing::{judged, more, start, take_in};

// What a call looks for: the session of a label, and whatever has that label or that discriminator.
#[derive(Clone, Copy)]
pub struct Target {
    pub label: u32,
    pub discriminator: u32,
}

// What is known at a place of the row: the clock, the set of all open places, the set from this
// place on, 0 while all open records were sound, what is looked for, 1 once a group was met. A bool would leave a gap behind
// it, which is copied in each turn.
#[derive(Clone, Copy)]
pub struct Progress {
    pub clock: u64,
    pub occupied: u64,
    pub rest: u64,
    pub fault: u64,
    pub label: u32,
    pub discriminator: u32,
    pub grouped: u64,
}

// What the scan comes to. `sound` is false where 26 is due; `full` is true where the party of the label
// has opened all that it may.
#[derive(Clone, Copy)]
pub struct Summary {
    pub place: usize,
    pub sound: bool,
    pub rival: bool,
    pub full: bool,
}

// Whether neither party has more open than it may, and whether the party of the label has all of it.
#[derive(Clone, Copy)]
pub struct Share {
    pub kept: bool,
    pub full: bool,
}
