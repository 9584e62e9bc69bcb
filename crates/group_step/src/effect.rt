// What an accepted call on a group makes of clock and record, what it tells, and the step.
ghost use Rattle.std.specs.Prelude.{◌≡◌, ◌&&◌, cond, eqb};
ghost use Rattle.step.specs.Stepping.{nowhere};
ghost use Rattle.grouping.specs.Grouped.{with_group, set_in, ac_set_in, returned_in, coordinated_in};
ghost use Rattle.group_step.specs.GroupStepping.{head_after, stored_at, acted_of, nothing_told, told_by, group_told, step_of};

use crate::decision::answer_to;
use crate::{GroupOutcome, GroupRequest, GroupSeen, GroupStepped, GroupTold};
use coordination::Dhc;
use homing::{Group, GroupReport, GroupSettings};
use session::Session;
use step::head_at;
use table::Head;

// No row is that long.
const NOWHERE: usize = usize::MAX;

// Asking brings no reading.
#[tactic(auto, unfolding(crate::specs::GroupStepping::head_after))]
fn head_after(head: Head, q: GroupRequest) -> Head
    ensures { result ≡ head_after head q }
{
    match q {
        GroupRequest::Set(_, _, u)
        | GroupRequest::Ac(_, _, _, u)
        | GroupRequest::Return(_, _, u)
        | GroupRequest::Heard(_, _, _, u) => head_at(head, u),
        GroupRequest::Ask(_, _) => head,
    }
}

// Asking changes nothing.
#[tactic(auto, unfolding(crate::specs::GroupStepping::stored_at))]
fn stored_at(place: usize, q: GroupRequest) -> usize
    ensures { result ≡ stored_at place q }
{
    match q {
        GroupRequest::Ask(_, _) => NOWHERE,
        _ => place,
    }
}

#[tactic(auto, unfolding(grouping::specs::Grouped::with_group))]
fn with_group(r: Session, g: Group) -> Session
    ensures { result ≡ with_group g r }
{
    Session { group: g, ..r }
}

#[tactic(auto, unfolding(grouping::specs::Grouped::set_in))]
fn set_in(r: Session, s: GroupSettings, reading: u64) -> Session
    ensures { result ≡ set_in s reading r }
{
    let loss = session::loss_at(r, reading);
    let crossing = session::crossing_at(r, reading);
    with_group(r, homing::group_of(s, loss, crossing))
}

// A loss at the reading is looked for first, as with every call on a group that is there.
#[tactic(auto, unfolding(grouping::specs::Grouped::ac_set_in))]
fn ac_set_in(r: Session, ac: u8, reading: u64) -> Session
    ensures { result ≡ ac_set_in ac reading r }
{
    let g = session::group_at(r, reading);
    with_group(r, homing::ac_set(g, ac))
}

#[tactic(auto, unfolding(grouping::specs::Grouped::returned_in))]
fn returned_in(r: Session, reading: u64) -> Session
    ensures { result ≡ returned_in reading r }
{
    let loss = session::loss_at(r, reading);
    let crossing = session::crossing_at(r, reading);
    let kept = session::group_at(r, reading);
    with_group(r, homing::returned_at(kept, loss, crossing))
}

#[tactic(auto, unfolding(grouping::specs::Grouped::coordinated_in))]
fn coordinated_in(r: Session, d: Dhc, reading: u64) -> Session
    ensures { result ≡ coordinated_in d reading r }
{
    with_group(r, homing::coordinated_by(session::group_at(r, reading), d))
}

// The record after an accepted call.
#[tactic(auto, unfolding(crate::specs::GroupStepping::acted_of))]
pub fn group_acted(q: GroupRequest, r: Session) -> Session
    ensures { result ≡ acted_of q r }
{
    match q {
        GroupRequest::Set(_, s, u) => set_in(r, s, u),
        GroupRequest::Ac(_, _, ac, u) => ac_set_in(r, ac, u),
        GroupRequest::Return(_, _, u) => returned_in(r, u),
        GroupRequest::Heard(_, _, d, u) => coordinated_in(r, d, u),
        GroupRequest::Ask(_, _) => r,
    }
}

fn nothing_told() -> GroupTold
    ensures { result ≡ nothing_told }
{
    GroupTold {
        dni: 0,
        pw: 0,
        ac: 0,
    }
}

fn told_of(g: Group) -> GroupTold
    ensures { result ≡ record { dni = g.dni; pw = g.pw; ac = g.ac } }
{
    GroupTold {
        dni: g.dni,
        pw: g.pw,
        ac: g.ac,
    }
}

#[tactic(auto, unfolding(crate::specs::GroupStepping::told_by))]
fn told_by(q: GroupRequest, r: Session, clock: u64) -> GroupTold
    ensures { result ≡ told_by q r clock }
{
    match q {
        GroupRequest::Ask(_, _) => told_of(session::group_at(r, clock)),
        _ => nothing_told(),
    }
}

fn head_if(accepted: bool, after: Head, head: Head) -> Head
    ensures { result ≡ cond accepted after head }
{
    if accepted { after } else { head }
}

fn place_if(accepted: bool, place: usize) -> usize
    ensures { result ≡ cond accepted place nowhere }
{
    if accepted { place } else { NOWHERE }
}

fn told_if(accepted: bool, told: GroupTold) -> GroupTold
    ensures { result ≡ cond accepted told nothing_told }
{
    if accepted { told } else { nothing_told() }
}

// The step: a refusal stores nothing, moves no clock and tells nothing.
#[tactic(auto, unfolding(crate::specs::GroupStepping::step_of))]
pub fn group_step(seen: GroupSeen, head: Head, q: GroupRequest, r: Session) -> GroupStepped
    ensures { result ≡ step_of seen head q r }
{
    let n = answer_to(seen, head, q, r);
    let accepted = n == 0;
    let place = place_if(accepted, stored_at(seen.place, q));
    let told = told_if(accepted, told_by(q, r, head.clock));
    GroupStepped {
        outcome: GroupOutcome {
            head: head_if(accepted, head_after(head, q), head),
            told,
            answer: n,
        },
        place,
    }
}

// The DNI-PW is up where a report on its label is accepted and says UP.
pub fn is_up(answer: u32, state: u8) -> bool
    ensures { result ≡ (eqb answer 0 && eqb state 3) }
{
    answer == 0 && state == 3
}

// What asking answers its caller, with what is known of the DNI-PW.
pub fn group_told(told: GroupTold, up: bool) -> GroupReport
    ensures { result ≡ group_told told up }
{
    GroupReport {
        pw: told.pw,
        ac: told.ac,
        forwarding: homing::forwarding_of(told.pw, told.ac, up),
    }
}
