// A log read for one label, from a place on.
ghost use Rattle.std.specs.Prelude.{◌≡◌};
ghost use Rattle.call_log.specs.Reading.{later_of, clock_after, followed, more_of, ended_at, read_to, at_start, counted_in, count_of, entry_fits, told_in, answer_from};

use crate::records::{header_fits, is_cut, is_whole, size_in};
use crate::{Answer, Ended, Point, Told};
use capture::{Record, record_in};
use octets::{Refusal, from_place, get_u16, part};
use own::record_after;
use session::Session;
use table::absent;

// No reading is past this.
const NEVER: u64 = u64::MAX;

// An accepted call that moves the clock past a reading.
fn is_later(until: u64, r: Record, answer: u16) -> bool
    ensures { result ≡ later_of until r answer }
{
    answer == 0 && r.kind < 6 && until < r.time
}

fn clock_after(r: Record, clock: u64) -> u64
    ensures { result ≡ clock_after r clock }
{
    if r.kind < 6 { r.time } else { clock }
}

// One record: a refused call leaves the label's record and the clock.
#[tactic(auto, unfolding(crate::specs::Reading::followed))]
pub fn follow(s: &[u8], label: u32, p: Point) -> Point
    ensures { result ≡ followed label s.now p }
{
    if get_u16(s, 16) != 0 {
        return p;
    }
    let r = record_in(s);
    Point {
        session: record_after(r, part(s, 18, r.size as usize), label, p.session),
        clock: clock_after(r, p.clock),
    }
}

// With n records more to read, whether the next one is gone through.
#[tactic(auto, unfolding(crate::specs::Reading::more_of))]
fn more(s: &[u8], until: u64, n: usize) -> bool
    ensures { result ≡ more_of until n s.now }
{
    0 < n && is_whole(s) && !is_later(until, record_in(s), get_u16(s, 16))
}

fn ended_at(n: usize, s: &[u8], p: Point) -> Ended
    ensures { result ≡ ended_at n s.now p }
{
    Ended {
        point: p,
        left: s.len(),
        spare: n,
        cut: 0 < n && is_cut(s),
    }
}

// Records differ in size, so the loop has no index: it goes on by what is left of the octets and of the
// records to read. At most so many records, up to the first accepted one that moves the clock past `until`.
#[tactic(auto, using(crate::proofs::Turns::reads))]
pub fn read_to(log: &[u8], label: u32, from: Point, most: usize, until: u64) -> Ended
    ensures { result ≡ read_to most label until log.now from }
{
    let mut rest = log;
    let mut point = from;
    let mut left = most;
    while more(rest, until, left) {
        point = follow(rest, label, point);
        rest = &rest[size_in(rest)..];
        left -= 1;
    }
    ended_at(left, rest, point)
}

// Before the first record: no session, clock 0.
pub fn at_start() -> Point
    ensures { result ≡ at_start }
{
    Point {
        session: absent(),
        clock: 0,
    }
}

// The number of records, or 19.
#[tactic(auto, using(crate::proofs::Turns::spares), unfolding(crate::specs::Reading::count_of))]
pub fn count_of(log: &[u8]) -> Result<usize, Refusal>
    ensures { counted_in result ≡ count_of log.now }
{
    if !header_fits(log) {
        return Err(Refusal::BadLog);
    }
    let e = read_to(from_place(log, 8), 0, at_start(), 65_536, NEVER);
    if e.left == 0 && 0 < e.spare {
        Ok(65_536 - e.spare)
    } else {
        Err(Refusal::BadLog)
    }
}

// Whether an entry of an index is in range.
#[tactic(auto, unfolding(crate::specs::Reading::entry_fits))]
pub fn entry_fits(s: Session, clock: u64, place: u64, label: u32, size: u64) -> bool
    ensures { result ≡ entry_fits s clock place label size }
{
    let held = s.settings.label;
    8 <= place && place <= size && (held == 0 || held == label && session::session_sound(s, clock))
}

// 19 for a record read that is cut, then 2, or the report at the reading.
#[tactic(auto, unfolding(crate::specs::Reading::answer_from))]
pub fn answer_from(e: Ended, reading: u64, looked: usize) -> Answer
    ensures { told_in result ≡ answer_from e reading looked }
{
    if e.cut {
        return Err(Refusal::BadLog);
    }
    let Point { session, clock } = e.point;
    if session.settings.label == 0 {
        return Err(Refusal::NotOpen);
    }
    Ok(Told {
        looked,
        report: session::report_at(session, clock.max(reading)),
    })
}
