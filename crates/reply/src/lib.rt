// Why is this so, asked of a whole capture in one slice: the cause in numbers, where the program
// `why` tells it in words.
#![tactic(auto)]

ghost use Rattle.std.specs.Prelude.{◌≡◌};
ghost use Rattle.octets.specs.Refusals.{answer_in};
ghost use Rattle.cause.specs.Causes.{cause_of};
ghost use Rattle.cause.specs.FromMarks.{why_from};
ghost use Rattle.cause.specs.Pasts.{past_of};
ghost use Rattle.trace.specs.Asking.{found_in};
ghost use Rattle.reply.specs.Beginning.{beginning};

use capture::header_fits;
use cause::{Cause, Marks, Thing, cause_from};
use octets::Refusal;
use trace::{Asked, Found, Tracing, record_asked, trace};

// An empty table behind the header, asked at the end of so many records.
#[tactic(auto, unfolding(crate::specs::Beginning::beginning, text::specs::Putting::empty_table))]
fn begin(label: u32, upto: u64) -> Asked
    ensures { result ≡ beginning label upto }
{
    let table = text::empty_table(8);
    let row = table.row;
    Asked {
        row,
        tracing: Tracing {
            fed: table.fed,
            upto,
            marks: cause::anew(0),
            label,
        },
    }
}

// 2 where the label has no record.
fn answer_from(f: Found, m: Marks, clock: u64, thing: Thing) -> Result<Cause, Refusal>
    ensures { answer_in result ≡ why_from m (found_in f) clock thing }
{
    if f.there {
        cause_from(m, f.session, clock, thing)
    } else {
        Err(Refusal::NotOpen)
    }
}

// The record that accounts for the thing, its reading, its age and the end; or 2, or 15. No capture has
// more records than octets. Of the last crossed message no octet is kept: its words are not asked for.
pub fn why(capture: &[u8], label: u32, thing: Thing) -> Result<Cause, Refusal>
    ensures { answer_in result ≡ cause_of (past_of capture.now) label thing }
{
    if !header_fits(capture) {
        return Err(Refusal::NotOpen);
    }
    let upto = capture.len() as u64;
    let mut kept = [0u8; 0];
    let t = trace(begin(label, upto), capture, &mut kept);
    let x = t.tracing;
    answer_from(record_asked(t), x.marks, x.fed.head.clock, thing)
}
