// A table by value that is asked about one label: its own row of 64 records, and the tracing.
ghost use Rattle.std.specs.Prelude.{◌≡◌};
ghost use Rattle.trace.specs.Tracing.{trace_of};
ghost use Rattle.trace.specs.Asking.{found_by};

use crate::{Tracing, trace_row};
use row::{find, record_at};
use session::Session;

#[derive(Clone, Copy)]
pub struct Asked {
    pub row: [Session; 64],
    pub tracing: Tracing,
}

// The record of the label, where it is open. (a) `found_by` and `found_in`, by which `inquiry` and
// `reply` say what they answer, read its mark.
#[derive(Clone, Copy)]
pub struct Found {
    pub session: Session,
    pub there: bool,
}

// The tracing of a table's own row.
pub fn trace(t: Asked, input: &[u8], kept: &mut [u8]) -> Asked
    ensures { record { row = result.row; tracing = result.tracing; kept = kept.new } ≡ trace_of t.row t.tracing input.now kept.old }
{
    let mut row = t.row;
    let tracing = trace_row(&mut row, t.tracing, input, kept);
    Asked { row, tracing }
}

// The record of the label that is asked about. It is there where its place is one of the row's; no
// session has discriminator 0.
#[tactic(auto, unfolding(crate::specs::Asking::found_by))]
pub fn record_asked(t: Asked) -> Found
    ensures { result ≡ found_by t }
{
    let place = find(&t.row, t.tracing.fed.head.occupied, t.tracing.label, 0);
    Found {
        session: record_at(&t.row, place),
        there: place < 64,
    }
}
