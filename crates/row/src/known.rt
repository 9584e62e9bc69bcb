// The calls on a row of which it is known whether it is in order, and where it is the place of the
// label or a rival: by a scan, or by a search. A refusal stores nothing.
ghost use Rattle.std.specs.Prelude.{◌≡◌};
ghost use Rattle.step.specs.Stepping.{obey_at, open_at};
ghost use Rattle.step.specs.Arriving.{bfd_at, fault_at, receive_at};

use crate::{put_record, record_at};
use scan::Summary;
use session::Session;
use step::{Arrival, Opening, Outcome, Request};
use table::Head;

// A call that brings numbers alone.
#[tactic(auto, unfolding(step::specs::Stepping::obey_at))]
pub fn obey_at(row: &mut [Session], head: Head, seen: Summary, q: Request) -> Outcome
    ensures { record { outcome = result; row = row.new } ≡ obey_at row.old head seen q }
{
    let r = record_at(&*row, seen.place);
    let done = step::step(seen, head, q, r);
    put_record(&mut *row, done.place, step::acted_by(q, r));
    done.outcome
}

// An open.
#[tactic(auto, unfolding(step::specs::Stepping::open_at))]
pub fn open_at(row: &mut [Session], head: Head, seen: Summary, g: Opening) -> Outcome
    ensures { record { outcome = result; row = row.new } ≡ open_at row.old head seen g }
{
    let r = record_at(&*row, seen.place);
    let done = step::opening_step(seen, head, g, r);
    put_record(&mut *row, done.place, step::opened_by(g, r));
    done.outcome
}

// A CC or a CV that arrives on a label. The record stays in the row: only what changed is stored.
fn bfd_at(row: &mut [Session], x: Arrival, m: &[u8]) -> Outcome
    ensures { record { outcome = result; row = row.new } ≡ bfd_at row.old x m.now }
{
    let place = step::met_at(x);
    if place >= row.len() {
        return step::unmet(x);
    }
    let s = row[place];
    let a = step::bfd_met(s, x, m);
    row[place] = session::with_live(s, a);
    step::bfd_said(x, a)
}

// A fault message that arrives on a label.
fn fault_at(row: &mut [Session], x: Arrival, m: &[u8]) -> Outcome
    ensures { record { outcome = result; row = row.new } ≡ fault_at row.old x m.now }
{
    let place = step::met_at(x);
    if place >= row.len() {
        return step::unmet(x);
    }
    let s = row[place];
    let f = step::fault_met(s, x, m);
    row[place] = session::with_fault(s, f);
    step::fault_said(x, f)
}

// A message that arrives on a label.
#[tactic(auto, unfolding(step::specs::Arriving::receive_at))]
pub fn receive_at(row: &mut [Session], x: Arrival, m: &[u8]) -> Outcome
    ensures { record { outcome = result; row = row.new } ≡ receive_at row.old x m.now }
{
    if step::brings_fault(x, m) {
        return fault_at(row, x, m);
    }
    bfd_at(row, x, m)
}
