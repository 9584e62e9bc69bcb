// What `spacing` does between its system calls: a capture read piece by piece for the spacing of one
// label's heard CCs, and the line of its numbers.
#![tactic(auto)]

mod input;
mod words;

pub use input::{Gauge, got, put_text, start};
pub use words::put_usage;
