// The fault conditions of a session: four places, by value. Decisions are made on numbers and marks;
// what is built is built whole.
#![tactic(auto)]

mod sound;
mod standing;
mod taking;

use rules::Key;
pub use sound::{conditions_sound, four_empty};
pub use standing::{any_followed, any_marked, count_at, does_stand};
pub use taking::{no_conditions, take_fault};

// A place: the key of its condition (type 0 where there is none), the L flag as 0 or 1, the refresh
// in seconds, and the reading of its last message.
#[repr(C)]
#[derive(Clone, Copy)]
pub struct Condition {
    pub at: u64,
    pub key: Key,
    pub refresh: u8,
    pub linkdown: u8,
}

#[repr(C)]
#[derive(Clone, Copy)]
pub struct Conditions {
    pub first: Condition,
    pub second: Condition,
    pub third: Condition,
    pub fourth: Condition,
}

// What a fault message leaves: the places, and its answer. No Result: what the record of a capture notes (`fault_noted`)
// is said of the places whatever the answer is.
#[derive(Clone, Copy)]
pub struct Verdict {
    pub places: Conditions,
    pub answer: u32,
}
