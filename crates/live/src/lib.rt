// Why is this so, asked of a live table. A table has no record numbers: it knows the reading of the
// message that accounts for a thing, how old that is at the clock, and the end.
#![tactic(auto)]

mod answer;
mod known;

pub use answer::{kept_record, live_step, live_target};
pub use known::why_at;
use rules::{Circuit, Key};
use table::Head;

// What is asked: a label and the party that asks, the number of a thing, and the key of a condition. 1
// is a crossing, 2 a loss, 3 an alarm held back, 4 the condition of the key. Any other number stands for
// nothing.
#[repr(C)]
#[derive(Clone, Copy)]
pub struct LiveQuestion {
    pub circuit: Circuit,
    pub key: Key,
    pub thing: u8,
}

// Clock and set as they are; the reading of the message that accounts for the thing, its age at the
// clock and the end, or three noughts beside a refusal; and the answer.
#[repr(C)]
#[derive(Clone, Copy)]
pub struct LiveCause {
    pub head: Head,
    pub reading: u64,
    pub age: u64,
    pub end: u64,
    pub answer: u32,
}

// What is answered, and the place of the record that was asked.
#[derive(Clone, Copy)]
pub struct LiveStep {
    pub outcome: LiveCause,
    pub place: usize,
}
