// What a call on a group looks for in the row, and what is known once that was looked for.
ghost use Rattle.std.specs.Prelude.{◌≡◌, ◌&&◌, cond};
ghost use Rattle.table.specs.Places.{first_on};
ghost use Rattle.grouping.specs.Commands.{is_dhc};
ghost use Rattle.grouping.specs.Grouped.{holds_group};
ghost use Rattle.group_step.specs.GroupStepping.{named_by, held_by, heard_on, target_of, plain_of, seen_of, heard_of};

use crate::{GroupRequest, GroupSeen, GroupTarget};
use coordination::DHC_CHANNEL;
use homing::GroupSettings;
use scan::{Summary, Target};
use session::Session;

// The two labels, as the party means them.
fn named_by(party: u32, s: GroupSettings) -> GroupTarget
    ensures { result ≡ named_by party s }
{
    GroupTarget {
        label: rules::own_label(party, s.service),
        second: rules::own_label(party, s.dni),
        party,
        id: s.id,
        named: true,
    }
}

// No label: the group alone.
fn held_by(party: u32, id: u32) -> GroupTarget
    ensures { result ≡ held_by party id }
{
    GroupTarget {
        label: 0,
        second: 0,
        party,
        id,
        named: false,
    }
}

// The label that a message came on must be open, and its party has the group.
fn heard_on(label: u32, id: u32) -> GroupTarget
    ensures { result ≡ heard_on label id }
{
    GroupTarget {
        label,
        second: 0,
        party: rules::party_of(label),
        id,
        named: false,
    }
}

pub fn group_target(q: GroupRequest) -> GroupTarget
    ensures { result ≡ target_of q }
{
    match q {
        GroupRequest::Set(p, s, _) => named_by(p, s),
        GroupRequest::Ac(p, id, _, _) | GroupRequest::Return(p, id, _) | GroupRequest::Ask(p, id) =>
            { held_by(p, id) }
        GroupRequest::Heard(l, _, d, _) => heard_on(l, d.id),
    }
}

// The scan looks for the label; no discriminator is looked for.
pub fn plain_target(t: GroupTarget) -> Target
    ensures { result ≡ plain_of t }
{
    Target {
        label: t.label,
        discriminator: 0,
    }
}

// The first place of the set is occupied, and its record has the party's group of this ID.
pub fn is_holder(rest: u64, r: Session, party: u32, id: u32) -> bool
    ensures { result ≡ (first_on rest && holds_group party id r) }
{
    rest % 2 == 1 && rules::party_of(r.settings.label) == party && homing::has_id(r.group, id)
}

fn met_at(named: bool, place: usize, holder: usize) -> usize
    ensures { result ≡ cond named place holder }
{
    if named { place } else { holder }
}

// From what a scan says, the place of the second label, and that of the group.
pub fn seen_by(s: Summary, second: usize, holder: usize, t: GroupTarget) -> GroupSeen
    ensures { result ≡ seen_of s second holder t }
{
    GroupSeen {
        place: met_at(t.named, s.place, holder),
        sound: s.sound,
        first: s.place < 64,
        second: second < 64,
        taken: holder < 64,
    }
}

// A message is a DHC message by its header: a group takes it, and no session.
pub fn is_dhc(m: &[u8]) -> bool
    ensures { result ≡ is_dhc m.now }
{
    gach::header_refusal(m).is_ok() && octets::get_u16(m, 2) == DHC_CHANNEL
}

// A DHC message that came on a label.
pub fn heard(label: u32, m: &[u8], reading: u64) -> GroupRequest
    ensures { result ≡ heard_of label m.now reading }
{
    let n = octets::answer_number(coordination::dhc_refusal(m));
    GroupRequest::Heard(label, n, coordination::dhc_fields(m), reading)
}
