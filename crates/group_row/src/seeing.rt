// What a call on a group sees of the row: a scan for the label, which says whether the table is in
// order, a search for the second label, and one for the group.
ghost use Rattle.std.specs.Prelude.{◌≡◌};
ghost use Rattle.table.specs.Places.{first_hit};
ghost use Rattle.group_step.specs.GroupSeeing.{holder_place, seen_in};

use crate::find_group;
use group_step::{GroupSeen, GroupTarget};
use session::Session;
use table::Head;

// The place of the second label. No discriminator is looked for: 0 is none.
#[tactic(auto, unfolding(table::specs::Places::first_hit))]
fn second_place(row: &[Session], head: Head, t: GroupTarget) -> usize
    ensures { result ≡ first_hit t.second 0 head.occupied row.now }
{
    row::find(row, head.occupied, t.second, 0)
}

// The place of the group.
#[tactic(auto, unfolding(group_step::specs::GroupSeeing::holder_place))]
fn holder_place(row: &[Session], head: Head, t: GroupTarget) -> usize
    ensures { result ≡ holder_place t.party t.id head.occupied row.now }
{
    find_group(row, head.occupied, t.party, t.id)
}

pub fn group_seen(row: &[Session], head: Head, t: GroupTarget) -> GroupSeen
    ensures { result ≡ seen_in row.now head t }
{
    let s = row::scan_row(row, head, group_step::plain_target(t));
    let second = second_place(row, head, t);
    let holder = holder_place(row, head, t);
    group_step::seen_by(s, second, holder, t)
}
