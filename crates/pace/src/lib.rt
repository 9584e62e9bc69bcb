// A capture read for the spacing of one label's heard CCs: each record is a call on the lent row, as a
// feed makes it, and what it is to the label is counted. 26 is asked once, as in a feed.
#![tactic(auto)]

mod asked;
mod records;

ghost use Rattle.std.specs.Prelude.{◌≡◌};
ghost use Rattle.pace.specs.Pacing.{pace_of};

pub use asked::{Asked, pace};
use feed::{Fed, watch_row};
use interval::Pace;
use session::Session;

// How far a table is fed, the label that is asked about, and what is kept of it: its last heard CC and
// the account of its spacing errors.
#[derive(Clone, Copy)]
pub struct Pacing {
    pub fed: Fed,
    pub pace: Pace,
    pub label: u32,
}

// As many whole records as stand in the input. Nothing is kept of their octets: the buffer is empty.
fn pace_row(row: &mut [Session], from: Pacing, input: &[u8]) -> Pacing
    ensures { record { row = row.exit.now; pacing = result } ≡ pace_of row.entry.now from input.now }
{
    let mut none = [0u8; 0];
    watch_row(row, from, input, &mut none)
}
