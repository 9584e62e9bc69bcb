// The line of an answer, put into a lent buffer.
ghost use Rattle.std.specs.Prelude.{◌≡◌};
ghost use Rattle.capture.specs.Typing.{typed};
ghost use Rattle.index_file.specs.Seeking.{told_by};
ghost use Rattle.index_file.specs.Words.{refused_line, told_line, answer_line};

use crate::Numbered;
use call_log::Told;
use capture::{put_decimal, put_report, put_spaced, put_words};
use rules::Report;

#[tactic(auto, using(capture::proofs::Typing::parts), unfolding(crate::specs::Words::refused_line))]
fn put_refused(out: &mut [u8], at: usize, n: u64) -> usize
    ensures { record { buffer = out.new; at = result } ≡ typed (record { buffer = out.old; at = at }) (refused_line n) }
{
    let next = put_decimal(&mut *out, at, n);
    put_words(out, next, b"\n")
}

// 0, the report and the looks.
fn put_told(out: &mut [u8], at: usize, r: Report, looked: u64) -> usize
    ensures { record { buffer = out.new; at = result } ≡ typed (record { buffer = out.old; at = at }) (told_line r looked) }
{
    let a = put_words(&mut *out, at, b"0");
    let b = put_report(&mut *out, a, r);
    let c = put_spaced(&mut *out, b, looked);
    put_words(out, c, b"\n")
}

// 0, the seven numbers of the report and the number of entries looked at; or the refusal's number.
#[tactic(auto, unfolding(crate::specs::Words::answer_line))]
pub fn put_answer<N: Numbered>(out: &mut [u8], at: usize, a: Result<Told, N>) -> usize
    ensures { record { buffer = out.new; at = result } ≡ typed (record { buffer = out.old; at = at }) (answer_line (told_by N.numbered a)) }
{
    match a {
        Ok(t) => put_told(out, at, t.report, t.looked as u64),
        Err(r) => put_refused(out, at, r.number() as u64),
    }
}
