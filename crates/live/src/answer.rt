// The answer from the record of the label, once it is known whether the table is in order and where
// the label stands.
ghost use Rattle.std.specs.Prelude.{◌≡◌};
ghost use Rattle.step.specs.Requests.{aimed_at};
ghost use Rattle.octets.specs.Refusals.{refusal_in, answer_in};
ghost use Rattle.live.specs.Live.{asked_label, live_marks, thing_of, cause_live, without_number, told_of, table_refusal, answer_of, step_of};

use crate::{LiveCause, LiveQuestion, LiveStep};
use cause::{Cause, Marks, Thing, cause_from};
use conditions::Conditions;
use octets::Refusal;
use scan::{Summary, Target};
use session::Session;
use table::Head;

// A question looks for its label, which is none where it is another party's.
pub fn live_target(q: LiveQuestion) -> Target
    ensures { result ≡ aimed_at (asked_label q) }
{
    step::aimed_at(rules::own_label(q.circuit.party, q.circuit.label))
}

// In place of record numbers the readings of the conditions: of two the later record has no smaller
// one.
fn live_marks(cs: Conditions) -> Marks
    ensures { result ≡ live_marks cs }
{
    Marks {
        timed: 0,
        crossed: 0,
        first: cs.first.at,
        second: cs.second.at,
        third: cs.third.at,
        fourth: cs.fourth.at,
        size: 0,
        by: 0,
    }
}

fn cause_live(r: Session, now: u64, q: LiveQuestion) -> Result<Cause, Refusal>
    ensures { answer_in result ≡ cause_live r now (thing_of q) }
{
    let m = live_marks(r.conditions);
    let thing = match q.thing {
        1 => Thing::Crossing,
        2 => Thing::Loss,
        3 => Thing::HeldBack,
        4 => Thing::Condition(q.key),
        _ => return Err(Refusal::NotStanding),
    };
    cause_from(m, r, now, thing)
}

// 26, then 2.
fn table_refusal(seen: Summary) -> Result<(), Refusal>
    ensures { refusal_in result ≡ table_refusal seen }
{
    if !seen.sound {
        return Err(Refusal::Unsound);
    }
    if seen.place >= 64 {
        return Err(Refusal::NotOpen);
    }
    Ok(())
}

// Then what the record says.
#[tactic(auto, unfolding(crate::specs::Live::answer_of))]
fn live_answer(seen: Summary, now: u64, q: LiveQuestion, r: Session) -> Result<Cause, Refusal>
    ensures { answer_in result ≡ answer_of seen now (thing_of q) r }
{
    table_refusal(seen)?;
    cause_live(r, now, q)
}

fn told(head: Head, a: Result<Cause, Refusal>) -> LiveCause
    ensures { result ≡ told_of head (without_number (answer_in a)) }
{
    match a {
        Ok(c) => LiveCause {
            head,
            reading: c.reading,
            age: c.age,
            end: c.end,
            answer: 0,
        },
        Err(refusal) => LiveCause {
            head,
            reading: 0,
            age: 0,
            end: 0,
            answer: u32::from(refusal),
        },
    }
}

#[tactic(auto, unfolding(crate::specs::Live::step_of))]
pub fn live_step(seen: Summary, head: Head, q: LiveQuestion, r: Session) -> LiveStep
    ensures { result ≡ step_of seen head q r }
{
    LiveStep {
        outcome: told(head, live_answer(seen, head.clock, q, r)),
        place: seen.place,
    }
}

// A question leaves the record as it is.
pub fn kept_record(_q: LiveQuestion, r: Session) -> Session
    ensures { result ≡ r }
{
    r
}
