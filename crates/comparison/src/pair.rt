// Two records at the front of two runs of octets.
ghost use Rattle.std.specs.Prelude.{◌≡◌, ◌≤◌, length};
ghost use Rattle.capture.specs.Raws.{stands_in};
ghost use Rattle.comparison.specs.Walk.{step_of, marks_of, unmarked, alike_in};

use crate::Marks;
use capture::{body_at, is_whole, next_record, record_at};

// Whether a whole record stands at the front.
#[tactic(auto, using(crate::proofs::Pairs::stood))]
pub fn stands(s: &[u8]) -> bool
    ensures { result ≡ stands_in 16 s.now }
{
    is_whole(next_record(s, 0))
}

// The octets of that record; where none stands, 0.
#[tactic(auto, using(crate::proofs::Pairs::steps))]
pub fn step_of(s: &[u8]) -> usize
    ensures { (result ≡ step_of s.now) × (result ≤ length s.now) }
{
    if stands(s) {
        16 + record_at(s, 0).size as usize
    } else {
        0
    }
}

// Every field counts, also one that no call reads.
#[tactic(auto, using(crate::proofs::Pairs::marks))]
pub fn marks_of(s: &[u8], t: &[u8]) -> Marks
    ensures { result ≡ marks_of s.now t.now }
{
    let here = stands(t);
    if !stands(s) {
        return Marks {
            second: here,
            ..Marks::default()
        };
    }
    if !here {
        return Marks {
            first: true,
            ..Marks::default()
        };
    }
    let a = record_at(s, 0);
    let b = record_at(t, 0);
    let same = body_at(s, 0, a.size as usize) == body_at(t, 0, b.size as usize);
    Marks {
        time: a.time != b.time,
        label: a.label != b.label,
        kind: a.kind != b.kind,
        size: a.size != b.size,
        body: !same,
        ..Marks::default()
    }
}

// Whether no field differs.
pub fn is_unmarked(m: Marks) -> bool
    ensures { result ≡ unmarked m }
{
    !m.time && !m.label && !m.kind && !m.size && !m.body
}

// Whether both have a whole record at the front, and the same one.
#[tactic(auto, using(crate::proofs::Pairs::alikes))]
pub fn are_alike(s: &[u8], t: &[u8]) -> bool
    ensures { result ≡ alike_in s.now t.now }
{
    stands(s) && stands(t) && is_unmarked(marks_of(s, t))
}
