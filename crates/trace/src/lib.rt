// A capture read for one label: each record is a call on the lent row, as a feed makes it, and notes
// what accounts for what its session shows. The octets of the last crossed message are kept in a lent
// buffer. 26 is asked once, as in a feed.
#![tactic(auto)]

mod asked;
mod records;

ghost use Rattle.std.specs.Prelude.{◌≡◌};
ghost use Rattle.trace.specs.Tracing.{trace_of};

pub use asked::{Asked, Found, record_asked, trace};
use cause::Marks;
use feed::{Fed, watch_row};
use session::Session;

// How far a table is fed, after how many records it is asked, the label that is asked about, and the
// marks of its session.
#[derive(Clone, Copy)]
pub struct Tracing {
    pub fed: Fed,
    pub upto: u64,
    pub marks: Marks,
    pub label: u32,
}

// As many whole records as stand in the input, and no more than are asked for.
pub fn trace_row(row: &mut [Session], from: Tracing, input: &[u8], kept: &mut [u8]) -> Tracing
    ensures { record { row = row.exit.now; tracing = result; kept = kept.new } ≡ trace_of row.entry.now from input.now kept.old }
{
    watch_row(row, from, input, kept)
}
