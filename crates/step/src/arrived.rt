// A message that arrives on a label: what it is refused for before the record of the label is looked
// at, what it does to that record, and what is said.
ghost use Rattle.std.specs.Prelude.{◌≡◌};
ghost use Rattle.octets.specs.Refusals.{number_of};
ghost use Rattle.session.specs.Live.{is_fault, bfd_acted, fault_acted};
ghost use Rattle.step.specs.Arriving.{message_in, met_at, unmet_of, received_of};

use crate::effect::{NOWHERE, head_at, nothing_told};
use crate::{Arrival, Outcome};
use octets::{Refusal, part};
use session::{Acted, Faulted, Session};

// The place of the record that the message meets; no row has it where 26 or 1 is due.
pub fn met_at(x: Arrival) -> usize
    ensures { result ≡ met_at x }
{
    if x.sound && !rules::is_late(x.head.clock, x.reading) {
        x.place
    } else {
        NOWHERE
    }
}

fn unmet_refusal(x: Arrival) -> Refusal
    ensures { number_of result ≡ (unmet_of x).answer }
{
    if !x.sound {
        Refusal::Unsound
    } else if rules::is_late(x.head.clock, x.reading) {
        Refusal::Late
    } else {
        Refusal::NotOpen
    }
}

// 26, 1, or 2 where there is no record of the label.
pub fn unmet(x: Arrival) -> Outcome
    ensures { result ≡ unmet_of x }
{
    Outcome {
        head: x.head,
        told: nothing_told(),
        answer: u32::from(unmet_refusal(x)),
    }
}

fn received_by(x: Arrival, answer: u32) -> Outcome
    ensures { result ≡ received_of x answer }
{
    Outcome {
        head: if answer == 0 {
            head_at(x.head, x.reading)
        } else {
            x.head
        },
        told: nothing_told(),
        answer,
    }
}

// Whether it is a fault message.
#[tactic(auto, unfolding(session::specs::Live::is_fault))]
pub fn brings_fault(x: Arrival, m: &[u8]) -> bool
    ensures { result ≡ is_fault (message_in x m.now) }
{
    session::is_fault(part(m, x.from, x.size))
}

// A CC or a CV, or what is neither and refused.
#[tactic(auto, unfolding(session::specs::Live::bfd_acted))]
pub fn bfd_met(s: Session, x: Arrival, m: &[u8]) -> Acted
    ensures { result ≡ bfd_acted s (message_in x m.now) x.reading }
{
    session::bfd_act(s, part(m, x.from, x.size), x.reading)
}

pub fn bfd_said(x: Arrival, a: Acted) -> Outcome
    ensures { result ≡ received_of x a.answer }
{
    received_by(x, a.answer)
}

#[tactic(auto, unfolding(session::specs::Live::fault_acted))]
pub fn fault_met(s: Session, x: Arrival, m: &[u8]) -> Faulted
    ensures { result ≡ fault_acted s (message_in x m.now) x.reading }
{
    session::fault_act(s, part(m, x.from, x.size), x.reading)
}

pub fn fault_said(x: Arrival, f: Faulted) -> Outcome
    ensures { result ≡ received_of x f.answer }
{
    received_by(x, f.answer)
}
