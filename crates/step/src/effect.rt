// What an accepted request makes of clock, set and record, what it tells, and the step.
ghost use Rattle.std.specs.Prelude.{◌≡◌};
ghost use Rattle.rules.specs.Calls.{no_report};
ghost use Rattle.step.specs.Stepping.{set_place, at, no_cv, nothing_told, told_by, head_after, stored_at, effect_on, step_of};

use crate::decision::refusal_to;
use crate::{Outcome, Request, Stepped, Told};
use cv::CvOctets;
use rules::Report;
use scan::Summary;
use session::Session;
use table::Head;

// No row is that long. A number and no Option: `step_of`, `obey_at` and `met_at` of specs/ set a row at it, past every end.
pub(crate) const NOWHERE: usize = usize::MAX;

pub fn head_at(head: Head, reading: u64) -> Head
    ensures { result ≡ at head reading }
{
    Head {
        clock: reading,
        ..head
    }
}

fn place_number(place: usize) -> u32
    ensures { result ≡ set_place place }
{
    if place < 64 { place as u32 } else { 64 }
}

#[tactic(auto, unfolding(crate::specs::Stepping::head_after))]
fn head_after(s: Summary, head: Head, q: Request) -> Head
    ensures { result ≡ head_after s head q }
{
    match q {
        Request::Tick(u) | Request::Lock(_, u) | Request::Unlock(_, u) => head_at(head, u),
        Request::Close(_, u) => Head {
            clock: u,
            occupied: table::without_place(head.occupied, place_number(s.place)),
        },
        Request::ReportOn(_) | Request::WriteCc(_, _) | Request::WriteCv(_, _) => head,
    }
}

#[tactic(auto, unfolding(crate::specs::Stepping::stored_at))]
fn stored_at(place: usize, q: Request) -> usize
    ensures { result ≡ stored_at place q }
{
    match q {
        Request::Lock(_, _) | Request::Unlock(_, _) | Request::WriteCc(_, _) => place,
        Request::Tick(_) | Request::Close(_, _) | Request::ReportOn(_) | Request::WriteCv(_, _) =>
            NOWHERE,
    }
}

// The record after an accepted request.
#[tactic(auto, unfolding(crate::specs::Stepping::effect_on))]
pub fn acted_by(q: Request, r: Session) -> Session
    ensures { result ≡ effect_on q r }
{
    match q {
        Request::Lock(_, u) => session::locked_at(r, u),
        Request::Unlock(_, u) => session::unlocked_at(r, u),
        Request::WriteCc(_, _) => session::cc_written(r),
        Request::Tick(_) | Request::Close(_, _) | Request::ReportOn(_) | Request::WriteCv(_, _) =>
            r,
    }
}

// Seven noughts, of a call that tells no report.
pub fn no_report() -> Report
    ensures { result ≡ no_report }
{
    Report {
        state: 0,
        crossing: 0,
        loss: 0,
        alarm: 0,
        rdi: 0,
        blocked: 0,
        conditions: 0,
    }
}

// 44 octets, as many as the CV of a Section or LSP has.
fn no_cv() -> CvOctets
    ensures { result ≡ no_cv }
{
    CvOctets {
        octets: [0u8; 78],
        count: 44,
    }
}

pub fn nothing_told() -> Told
    ensures { result ≡ nothing_told }
{
    Told {
        report: no_report(),
        cc: [0u8; 28],
        cv: no_cv(),
    }
}

#[tactic(auto, unfolding(crate::specs::Stepping::told_by))]
fn told_by(q: Request, r: Session, clock: u64) -> Told
    ensures { result ≡ told_by q r clock }
{
    match q {
        Request::Tick(_) | Request::Close(_, _) | Request::Lock(_, _) | Request::Unlock(_, _) => {
            nothing_told()
        }
        Request::ReportOn(_) => Told {
            report: session::report_at(r, clock),
            ..nothing_told()
        },
        Request::WriteCc(_, _) => Told {
            cc: session::cc_octets_at(r, clock),
            ..nothing_told()
        },
        Request::WriteCv(_, _) => Told {
            cv: session::cv_octets_at(r, clock),
            ..nothing_told()
        },
    }
}

// The step: a refusal stores nothing and moves no clock. One record for both: one for each arm of a match copies what is
// told, which took 4 to 62 instructions more a call.
#[tactic(auto, unfolding(crate::specs::Stepping::step_of))]
pub fn step(s: Summary, head: Head, q: Request, r: Session) -> Stepped
    ensures { result ≡ step_of s head q r }
{
    let refusal = refusal_to(s, head, session::cv_size_of(r), q);
    let accepted = refusal.is_ok();
    Stepped {
        outcome: Outcome {
            head: if accepted {
                head_after(s, head, q)
            } else {
                head
            },
            told: told_by(q, r, head.clock),
            answer: octets::answer_number(refusal),
        },
        place: if accepted {
            stored_at(s.place, q)
        } else {
            NOWHERE
        },
    }
}
