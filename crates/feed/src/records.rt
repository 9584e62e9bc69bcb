// One record of the feed: whether it is there, and its line.
ghost use Rattle.std.specs.Prelude.{◌≡◌, true, eqb, drop};
ghost use Rattle.capture.specs.Records.{body_in};
ghost use Rattle.capture.specs.Lines.{numbered};
ghost use Rattle.capture.specs.Typing.{typed};
ghost use Rattle.feed.specs.Feeding.{more_of};
ghost use Rattle.feed.specs.Calling.{told_line, is_unread, refused_line, answer_line, line_by, behind_of, fed_on, answered};

use crate::Fed;
use capture::{
    Record, body_at, is_whole, next_record, put_placed, put_plain, put_reported, put_written,
};
use message::place_of;
use octets::part;
use step::{Outcome, Told};
use table::Head;

// A whole record stands next, and there is room for its line.
#[tactic(auto, unfolding(crate::specs::Feeding::more_of))]
pub fn more(f: Fed, input: &[u8], room: usize) -> bool
    ensures { result ≡ more_of f input.now room }
{
    is_whole(next_record(input, f.used)) && 160 <= room.saturating_sub(f.written)
}

// The place behind a record; its own where it does not stand whole in so many octets.
pub fn behind(octets: usize, used: usize, size: u16) -> usize
    ensures { result ≡ behind_of octets used size }
{
    let all = 16 + size as usize;
    if octets.saturating_sub(used) < all {
        return used;
    }
    used + all
}

pub fn number_after(n: u64) -> u64
    ensures { result ≡ numbered n }
{
    n.saturating_add(1)
}

// Kind 6 tells its report, 7 and 8 their octets. A CV that goes into the 44 octets of a capture has
// as many.
fn put_told(out: &mut [u8], at: usize, number: u64, kind: u16, told: Told) -> usize
    ensures { record { buffer = out.new; at = result } ≡ typed (record { buffer = out.old; at = at }) (told_line number kind told) }
{
    match kind {
        6 => put_reported(out, at, number, told.report),
        7 => put_written(out, at, number, &told.cc),
        _ => put_written(out, at, number, part(&told.cv.octets, 0, 44)),
    }
}

// A message that its reader refuses.
fn is_unread(kind: u16, answer: u32) -> bool
    ensures { result ≡ is_unread kind answer }
{
    kind == 5 && 3 <= answer && answer <= 8
}

// The line of a refusal. A refused message is read again for its place: the call's answer carries
// none.
#[tactic(auto, unfolding(crate::specs::Calling::refused_line))]
fn put_refused(
    out: &mut [u8],
    at: usize,
    number: u64,
    r: Record,
    answer: u32,
    input: &[u8],
    used: usize,
) -> usize
    ensures { record { buffer = out.new; at = result } ≡ typed (record { buffer = out.old; at = at }) (refused_line number r.kind answer (body_in (drop used input.now) r.size)) }
{
    if is_unread(r.kind, answer) {
        let place = place_of(body_at(input, used, r.size as usize));
        return put_placed(out, at, number, answer, place);
    }
    put_plain(out, at, number, answer)
}

// The line of a call that tells nothing but its answer.
fn put_answer(
    out: &mut [u8],
    at: usize,
    number: u64,
    r: Record,
    answer: u32,
    input: &[u8],
    used: usize,
) -> usize
    ensures { record { buffer = out.new; at = result } ≡ typed (record { buffer = out.old; at = at }) (answer_line number r.kind answer (body_in (drop used input.now) r.size)) }
{
    if answer != 0 {
        return put_refused(out, at, number, r, answer, input, used);
    }
    put_plain(out, at, number, 0)
}

// The line of an outcome, by the record's kind.
#[tactic(auto, unfolding(crate::specs::Calling::line_by))]
fn put_by(
    out: &mut [u8],
    at: usize,
    number: u64,
    r: Record,
    o: Outcome,
    input: &[u8],
    used: usize,
) -> usize
    ensures { record { buffer = out.new; at = result } ≡ typed (record { buffer = out.old; at = at }) (line_by number r.kind o (body_in (drop used input.now) r.size)) }
{
    if o.answer != 0 {
        return put_refused(out, at, number, r, o.answer, input, used);
    }
    if r.kind < 6 {
        return put_plain(out, at, number, 0);
    }
    put_told(out, at, number, r.kind, o.told)
}

// How far the table is fed behind a record of an input of so many octets.
pub fn fed_on(f: Fed, r: Record, octets: usize, head: Head, written: usize) -> Fed
    ensures { result ≡ fed_on f r octets head written }
{
    Fed {
        head,
        number: number_after(f.number),
        used: behind(octets, f.used, r.size),
        written,
    }
}

// The line for a record's outcome, and how far the table is fed then.
#[tactic(auto, unfolding(crate::specs::Calling::answered))]
pub fn answer_line(out: &mut [u8], f: Fed, input: &[u8], r: Record, o: Outcome) -> Fed
    ensures { record { fed = result; out = out.new } ≡ answered out.old f input.now r o }
{
    let number = number_after(f.number);
    let written = put_by(out, f.written, number, r, o, input, f.used);
    fed_on(f, r, input.len(), o.head, written)
}

// The same for a message: of its outcome only head and answer are asked for, so that room for what is
// told is not made. (b) An outcome that is lent to the two of them costs 10 to 21 instructions a record.
#[tactic(auto, unfolding(crate::specs::Calling::answered, crate::specs::Calling::line_by))]
pub fn message_line(out: &mut [u8], f: Fed, input: &[u8], r: Record, o: Outcome) -> Fed
    ensures { (eqb r.kind 5 ≡ true) → record { fed = result; out = out.new } ≡ answered out.old f input.now r o }
{
    let number = number_after(f.number);
    let written = put_answer(out, f.written, number, r, o.answer, input, f.used);
    fed_on(f, r, input.len(), o.head, written)
}
