// The question on a row of which it is known whether it is in order and where the label stands.
ghost use Rattle.std.specs.Prelude.{◌≡◌};
ghost use Rattle.live.specs.Live.{why_at};

use crate::{LiveCause, LiveQuestion, kept_record, live_step};
use row::{put_record, record_at};
use scan::Summary;
use session::Session;
use table::Head;

// The record that is asked is put back as it was: calls of one shape share one proof.
#[tactic(auto, unfolding(crate::specs::Live::why_at))]
pub fn why_at(row: &mut [Session], head: Head, seen: Summary, q: LiveQuestion) -> LiveCause
    ensures { (result ≡ why_at row.old head seen q) × (row.new ≡ row.old) }
{
    let r = record_at(&*row, seen.place);
    let done = live_step(seen, head, q, r);
    put_record(&mut *row, done.place, kept_record(q, r));
    done.outcome
}
