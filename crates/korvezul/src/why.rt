// Why is this so, for a card: a question to a live table.
ghost use Rattle.std.specs.Prelude.{◌≡◌};
ghost use Rattle.step.specs.Stepping.{table_of};
ghost use Rattle.live.specs.Live.{asking};

use live::{LiveCause, LiveQuestion, live_target, why_at};
use row::scan_row;
use session::Session;
use table::Head;

// The reading of the message that accounts for what a label shows, its age at the clock and the end.
// Row, clock and set stay as they are.
#[tactic(auto, unfolding(live::specs::Live::asking))]
pub fn korvezul_why(row: &mut [Session], head: &mut Head, q: LiveQuestion) -> LiveCause
    ensures { record { cause = result; table = table_of row.new head.new } ≡ asking (table_of row.old head.old) q }
{
    let s = scan_row(&*row, *head, live_target(q));
    let o = why_at(row, *head, s, q);
    *head = o.head;
    o
}
