// The lines for people, put into a lent buffer: an entry, where the rest begins, a refusal.
ghost use Rattle.std.specs.Prelude.{◌≡◌, ◌++◌};
ghost use Rattle.capture.specs.Lines.{decimal};
ghost use Rattle.capture.specs.Typing.{typed};
ghost use Rattle.comparison.specs.Words.{code_text, entry_line, mark_line, pair_text, w_end, rest_line, refused_line};

use crate::Marks;
use capture::{put_decimal, put_words};

fn put_code(out: &mut [u8], at: usize, code: u64) -> usize
    ensures { record { buffer = out.new; at = result } ≡ typed (record { buffer = out.old; at = at }) (code_text code) }
{
    match code {
        0 => put_words(out, at, b" time\n"),
        1 => put_words(out, at, b" label\n"),
        2 => put_words(out, at, b" kind\n"),
        3 => put_words(out, at, b" length\n"),
        4 => put_words(out, at, b" body\n"),
        5 => put_words(out, at, b" only in the first\n"),
        _ => put_words(out, at, b" only in the second\n"),
    }
}

// An entry of the list.
#[tactic(auto, using(capture::proofs::Typing::parts), unfolding(crate::specs::Words::entry_line))]
pub fn put_entry(out: &mut [u8], at: usize, entry: u64) -> usize
    ensures { record { buffer = out.new; at = result } ≡ typed (record { buffer = out.old; at = at }) (entry_line entry) }
{
    let next = put_decimal(&mut *out, at, entry / 8);
    put_code(out, next, entry % 8)
}

// A line of record n where the test holds.
#[tactic(auto, using(capture::proofs::Typing::parts))]
fn put_mark(out: &mut [u8], at: usize, n: u64, test: bool, code: u64) -> usize
    ensures { record { buffer = out.new; at = result } ≡ typed (record { buffer = out.old; at = at }) (mark_line n test code) }
{
    if !test {
        return at;
    }
    let next = put_decimal(&mut *out, at, n);
    put_code(out, next, code)
}

// The lines of record n.
#[tactic(auto, using(capture::proofs::Typing::parts), unfolding(crate::specs::Words::pair_text))]
pub fn put_pair(out: &mut [u8], at: usize, n: u64, m: Marks) -> usize
    ensures { record { buffer = out.new; at = result } ≡ typed (record { buffer = out.old; at = at }) (pair_text n m) }
{
    let a = put_mark(&mut *out, at, n, m.time, 0);
    let b = put_mark(&mut *out, a, n, m.label, 1);
    let c = put_mark(&mut *out, b, n, m.kind, 2);
    let d = put_mark(&mut *out, c, n, m.size, 3);
    let e = put_mark(&mut *out, d, n, m.body, 4);
    let f = put_mark(&mut *out, e, n, m.first, 5);
    put_mark(&mut *out, f, n, m.second, 6)
}

// A number to a line's end.
#[tactic(auto, using(capture::proofs::Typing::parts))]
fn put_last(out: &mut [u8], at: usize, n: u64) -> usize
    ensures { record { buffer = out.new; at = result } ≡ typed (record { buffer = out.old; at = at }) (decimal n ++ w_end) }
{
    let next = put_decimal(&mut *out, at, n);
    put_words(out, next, b"\n")
}

// Where the rest begins.
pub fn put_rest(out: &mut [u8], at: usize, place: u64) -> usize
    ensures { record { buffer = out.new; at = result } ≡ typed (record { buffer = out.old; at = at }) (rest_line place) }
{
    let next = put_words(&mut *out, at, b"rest ");
    put_last(out, next, place)
}

pub fn put_refused(out: &mut [u8], at: usize, n: u64) -> usize
    ensures { record { buffer = out.new; at = result } ≡ typed (record { buffer = out.old; at = at }) (refused_line n) }
{
    let next = put_words(&mut *out, at, b"refused ");
    put_last(out, next, n)
}
