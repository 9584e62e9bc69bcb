// The call on a group on a row of which it is known what the call sees. A refusal stores nothing.
ghost use Rattle.std.specs.Prelude.{◌≡◌};
ghost use Rattle.group_step.specs.GroupStepping.{group_at};

use group_step::{GroupOutcome, GroupRequest, GroupSeen};
use session::Session;
use table::Head;

#[tactic(auto, unfolding(group_step::specs::GroupStepping::group_at))]
pub fn group_at(row: &mut [Session], head: Head, seen: GroupSeen, q: GroupRequest) -> GroupOutcome
    ensures { record { outcome = result; row = row.new } ≡ group_at row.old head seen q }
{
    let r = row::record_at(&*row, seen.place);
    let done = group_step::group_step(seen, head, q, r);
    row::put_record(&mut *row, done.place, group_step::group_acted(q, r));
    done.outcome
}
