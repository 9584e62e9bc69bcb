// The question why, exported.
ghost use Rattle.std.specs.Prelude.{◌≡◌};
ghost use Rattle.step.specs.Stepping.{table_of};
ghost use Rattle.live.specs.Live.{asking};

use live::{LiveCause, LiveQuestion};
use session::Session;
use table::Head;

// The reading of the message that accounts for what a label shows, its age at the clock and the end.
// Row, clock and set stay as they are.
#[unsafe(no_mangle)]
pub extern "C" fn korvezul_why(row: &mut [Session], head: &mut Head, q: LiveQuestion) -> LiveCause
    ensures { record { cause = result; table = table_of row.new head.new } ≡ asking (table_of row.old head.old) q }
{
    korvezul::why::korvezul_why(row, head, q)
}
