// What each call answers, from the outcome of its request.
ghost use Rattle.std.specs.Prelude.{◌≡◌};
ghost use Rattle.octets.specs.Writing.{writing};
ghost use Rattle.step.specs.Saying.{cv_told};
ghost use Rattle.korvezul.specs.Calling.{answered_with, report_of};

use crate::ReportAnswer;
use rules::Report;
use step::Outcome;

pub fn number(o: Outcome) -> u32
    ensures { result ≡ o.answer }
{
    o.answer
}

// The seven numbers behind an answer.
fn answered_with(answer: u32, r: Report) -> ReportAnswer
    ensures { result ≡ answered_with answer r }
{
    ReportAnswer {
        answer,
        state: r.state,
        crossing: r.crossing,
        loss: r.loss,
        alarm: r.alarm,
        rdi: r.rdi,
        blocked: r.blocked,
        conditions: r.conditions,
    }
}

pub fn reported(o: Outcome) -> ReportAnswer
    ensures { result ≡ report_of o }
{
    if o.answer == 0 {
        return answered_with(0, o.told.report);
    }
    answered_with(o.answer, step::no_report())
}

#[tactic(auto, unfolding(octets::specs::Writing::writing))]
pub fn put_cc(buffer: &mut [u8], o: Outcome) -> u32
    ensures { record { answer = result; buffer = buffer.new } ≡ writing o.answer o.told.cc buffer.old }
{
    if o.answer != 0 {
        return o.answer;
    }
    octets::answer_number(octets::write_octets(buffer, &o.told.cc))
}

#[tactic(auto, unfolding(octets::specs::Writing::writing))]
pub fn put_cv(buffer: &mut [u8], o: Outcome) -> u32
    ensures { record { answer = result; buffer = buffer.new } ≡ writing o.answer (cv_told o.told) buffer.old }
{
    if o.answer != 0 {
        return o.answer;
    }
    let told = o.told.cv;
    octets::answer_number(octets::write_octets(buffer, octets::part(&told.octets, 0, told.count)))
}
