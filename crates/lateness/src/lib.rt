// How late, exactly, asked of a whole capture in one slice: the five numbers, or 21.
#![tactic(auto)]

ghost use Rattle.std.specs.Prelude.{◌≡◌};
ghost use Rattle.account.specs.Accounts.{spaced_in};
ghost use Rattle.cause.specs.Pasts.{past_of};
ghost use Rattle.interval.specs.Spacing.{spacing_of};
ghost use Rattle.lateness.specs.Beginning.{beginning};

use account::{Spacing, finish, nothing};
use capture::header_fits;
use octets::Refusal;
use pace::{Asked, Pacing, pace};

// An empty table behind the header.
#[tactic(auto, unfolding(crate::specs::Beginning::beginning, text::specs::Putting::empty_table))]
fn begin(label: u32) -> Asked
    ensures { result ≡ beginning label }
{
    let table = text::empty_table(8);
    let row = table.row;
    Asked {
        row,
        pacing: Pacing {
            fed: table.fed,
            pace: interval::at_rest(),
            label,
        },
    }
}

// The spacing of a label's heard CCs. A cut capture counts as the records before the cut, one with a
// bad header as none.
pub fn spacing(capture: &[u8], label: u32) -> Result<Spacing, Refusal>
    ensures { spaced_in result ≡ spacing_of label (past_of capture.now) }
{
    if !header_fits(capture) {
        return finish(nothing());
    }
    let t = pace(begin(label), capture);
    finish(t.pacing.pace.account)
}
