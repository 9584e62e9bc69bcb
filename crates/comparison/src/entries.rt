// The list: an entry is 8 times the number of a record, from 1 on, and a code.
ghost use Rattle.std.specs.Prelude.{◌≡◌, ◌||◌, ◌+◌, ◌*◌, ◌^◌, ◌≤◌, ◌<◌};
ghost use Rattle.capture.specs.Raws.{stands_in};
ghost use Rattle.comparison.specs.Differences.{only, list_of, listed_in, compared};
ghost use Rattle.comparison.specs.Walk.{marked, Put};

use crate::Marks;
use crate::pair::{marks_of, stands, step_of};
use crate::remaining::bad_capture;
use capture::put_at;
use octets::{Refusal, from_place};

// An entry where the test holds. Past the end it is counted and not written.
#[tactic(auto, using(crate::proofs::Octets::puts))]
fn put_only(list: &mut [u64], at: usize, test: bool, entry: u64) -> usize
    requires { at + 1 < 2 ^ 64 }
    ensures { (Put list.old at (only test entry) list.new result) × (result ≤ at + 1) }
{
    if !test {
        return at;
    }
    put_at(list, at, entry);
    at + 1
}

// The entries of record n. Seven calls, and no loop over the marks: each field keeps its name beside its
// code.
fn put_marks(list: &mut [u64], at: usize, n: u64, m: Marks) -> usize
    requires { (at + 7 < 2 ^ 64) × (8 * n + 6 < 2 ^ 64) }
    ensures { (Put list.old at (marked n m) list.new result) × (result ≤ at + 7) }
{
    let base = 8 * n;
    let a = put_only(&mut *list, at, m.time, base);
    let b = put_only(&mut *list, a, m.label, base + 1);
    let c = put_only(&mut *list, b, m.kind, base + 2);
    let d = put_only(&mut *list, c, m.size, base + 3);
    let e = put_only(&mut *list, d, m.body, base + 4);
    let f = put_only(&mut *list, e, m.first, base + 5);
    put_only(&mut *list, f, m.second, base + 6)
}

// One function, and no `||` in the loop: the proof names the loop's test once.
fn any_stands(s: &[u8], t: &[u8]) -> bool
    ensures { result ≡ (stands_in 16 s.now || stands_in 16 t.now) }
{
    stands(s) || stands(t)
}

// All entries, as far as there is room, and their number. Each capture goes on by its own record's
// size.
fn put_list(first: &[u8], second: &[u8], list: &mut [u64]) -> usize
    ensures { Put list.old 0 (list_of first.now second.now) list.new result }
{
    let mut s = from_place(first, 8);
    let mut t = from_place(second, 8);
    let mut n: u64 = 1;
    let mut count: usize = 0;
    // By two cursors: either log may end first.
    while any_stands(s, t) {
        count = put_marks(&mut *list, count, n, marks_of(s, t));
        s = &s[step_of(s)..];
        t = &t[step_of(t)..];
        n += 1;
    }
    count
}

// What differs, at the front of the lent list, and how many entries that are; nothing is written beside
// a refusal. The entries are counted first and then put.
#[tactic(auto, using(crate::proofs::Whole::answers))]
pub fn compare(first: &[u8], second: &[u8], list: &mut [u64]) -> Result<usize, Refusal>
    ensures { listed_in result list.new ≡ compared first.now second.now list.old }
{
    if bad_capture(first) {
        return Err(Refusal::FirstCapture);
    }
    if bad_capture(second) {
        return Err(Refusal::SecondCapture);
    }
    if list.len() < put_list(first, second, &mut [0u64; 0]) {
        return Err(Refusal::NoRoom);
    }
    Ok(put_list(first, second, list))
}
