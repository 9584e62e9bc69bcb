// Dual-homing groups on a table: what each group call and each DHC message says and leaves stands in
// specs/, and that order is kept and nothing else depends on a group in proofs/. By value there is what
// a search asks of one record.
#![tactic(auto)]

ghost use Rattle.std.specs.Prelude.{◌≡◌};
ghost use Rattle.grouping.specs.Grouped.{holds_group};

use session::Session;

// A record whose label is of this party and whose group has this ID.
pub fn holds_group(r: Session, party: u32, id: u32) -> bool
    ensures { result ≡ holds_group party id r }
{
    rules::party_of(r.settings.label) == party && homing::has_id(r.group, id)
}
