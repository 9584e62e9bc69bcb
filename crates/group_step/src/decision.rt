// The answer to a call on a group: 26 before all, then the order of the call.
ghost use Rattle.std.specs.Prelude.{◌≡◌};
ghost use Rattle.octets.specs.Choice.{need};
ghost use Rattle.octets.specs.Refusals.{refusal_in};
ghost use Rattle.group_step.specs.GroupStepping.{found_of, set_answer, named_answer, heard_answer, takes_in, sound_answer, answer_of};

use crate::{GroupRequest, GroupSeen};
use coordination::Dhc;
use homing::{Found, GroupSettings};
use octets::Refusal;
use session::Session;
use table::Head;

// What setting is judged by. The record is that of the service PW.
fn found_by(seen: GroupSeen, r: Session) -> Found
    ensures { result ≡ found_of seen r }
{
    Found {
        service: seen.first,
        dni: seen.second,
        grouped: r.group.set == 1,
        taken: seen.taken,
    }
}

// 24 where there is no group.
fn group_refusal(there: bool) -> Result<(), Refusal>
    ensures { refusal_in result ≡ need there 24 0 }
{
    if !there {
        return Err(Refusal::NoGroup);
    }
    Ok(())
}

fn set_answer(clock: u64, s: GroupSettings, f: Found, reading: u64) -> Result<(), Refusal>
    ensures { refusal_in result ≡ set_answer clock s f reading }
{
    if rules::is_late(clock, reading) {
        return Err(Refusal::Late);
    }
    homing::set_refusal(s, f)
}

fn named_answer(clock: u64, taken: bool, reading: u64) -> Result<(), Refusal>
    ensures { refusal_in result ≡ named_answer clock taken reading }
{
    if rules::is_late(clock, reading) {
        return Err(Refusal::Late);
    }
    group_refusal(taken)
}

// A label that is not open comes before what the reader says, and that before the group. The reader's refusal is a
// number, 0 for none: `answer_of` is said of every number that a request brings.
fn heard_answer(clock: u64, first: bool, refusal: u32, takes: bool, reading: u64) -> u32
    ensures { result ≡ heard_answer clock first refusal takes reading }
{
    if rules::is_late(clock, reading) {
        return u32::from(Refusal::Late);
    }
    if !first {
        return u32::from(Refusal::NotOpen);
    }
    if refusal != 0 {
        return refusal;
    }
    octets::answer_number(group_refusal(takes))
}

fn takes_in(r: Session, d: Dhc, label: u32) -> bool
    ensures { result ≡ takes_in label d r }
{
    homing::takes_from(r.group, d, label)
}

#[tactic(auto, unfolding(crate::specs::GroupStepping::sound_answer))]
fn sound_answer(seen: GroupSeen, clock: u64, q: GroupRequest, r: Session) -> u32
    ensures { result ≡ sound_answer seen clock q r }
{
    match q {
        GroupRequest::Set(_, s, u) => octets::answer_number(set_answer(
            clock,
            s,
            found_by(seen, r),
            u,
        )),
        GroupRequest::Ac(_, _, _, u) | GroupRequest::Return(_, _, u) => {
            octets::answer_number(named_answer(clock, seen.taken, u))
        }
        GroupRequest::Heard(l, n, d, u) => {
            heard_answer(clock, seen.first, n, takes_in(r, d, l), u)
        }
        GroupRequest::Ask(_, _) => octets::answer_number(group_refusal(seen.taken)),
    }
}

#[tactic(auto, unfolding(crate::specs::GroupStepping::answer_of))]
pub(crate) fn answer_to(seen: GroupSeen, head: Head, q: GroupRequest, r: Session) -> u32
    ensures { result ≡ answer_of seen head q r }
{
    if !seen.sound {
        return u32::from(Refusal::Unsound);
    }
    sound_answer(seen, head.clock, q, r)
}
