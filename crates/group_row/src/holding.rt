// The search for the record that has a group.
ghost use Rattle.std.specs.Prelude.{◌≡◌};
ghost use Rattle.group_step.specs.GroupSeeing.{holder_place};

use session::Session;

// The first open record with the party's group of this ID; the row's length where there is none.
#[tactic(auto, unfolding(group_step::specs::GroupSeeing::holder_place))]
pub fn find_group(row: &[Session], occupied: u64, party: u32, id: u32) -> usize
    ensures { result ≡ holder_place party id occupied row.now }
{
    let mut rest = occupied;
    for i in 0..row.len() {
        if rest == 0 {
            break;
        }
        if group_step::is_holder(rest, row[i], party, id) {
            return i;
        }
        rest /= 2;
    }
    row.len()
}
