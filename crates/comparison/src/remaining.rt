// Whole captures, and what is left of the first from its first record that differs.
ghost use Rattle.std.specs.Prelude.{◌≡◌, not, ◌+◌, ◌≤◌, eqb, length, drop};
ghost use Rattle.capture.specs.Raws.{raws_in};
ghost use Rattle.comparison.specs.Differences.{bad_capture, records_of};
ghost use Rattle.comparison.specs.Rest.{agreeing, rest_place, rest_of};

use crate::pair::{are_alike, stands, step_of};
use capture::header_fits;
use octets::from_place;

// Whether something is left behind the whole records.
fn is_cut(s: &[u8]) -> bool
    ensures { result ≡ not (eqb (length (raws_in 16 s.now).rest) 0) }
{
    let mut left = s;
    while stands(left) {
        left = &left[step_of(left)..];
    }
    !left.is_empty()
}

// A bad header, or a cut.
#[tactic(auto, unfolding(crate::specs::Differences::bad_capture))]
pub fn bad_capture(capture: &[u8]) -> bool
    ensures { result ≡ bad_capture capture.now }
{
    !header_fits(capture) || is_cut(from_place(capture, 8))
}

// The octets of the records that agree. As long as they do, they lie at the same places in both.
fn agreeing_octets(s: &[u8], t: &[u8]) -> usize
    ensures { (result ≡ agreeing (raws_in 16 s.now).raws (raws_in 16 t.now).raws) × (result ≤ length s.now) }
{
    let mut at: usize = 0;
    while are_alike(from_place(s, at), from_place(t, at)) {
        at += step_of(from_place(s, at));
    }
    at
}

// Where the rest begins.
#[tactic(auto, using(crate::proofs::Whole::places))]
pub fn rest_place(first: &[u8], second: &[u8]) -> usize
    ensures { (result ≡ rest_place first.now second.now) × (result ≤ length first.now) }
{
    if bad_capture(first) || bad_capture(second) {
        return first.len();
    }
    8 + agreeing_octets(from_place(first, 8), from_place(second, 8))
}

// The first capture from its first record that differs, an extra one counting; its empty tail where
// there is none, and where one of the two captures is bad.
#[tactic(auto, using(crate::proofs::Octets::part), unfolding(crate::specs::Rest::rest_of))]
pub fn rest<'a, 'b>(first: &'a [u8], second: &'b [u8]) -> &'a [u8]
    ensures which { result.now ≡ rest_of first.now second.now }
    ensures whose { (result.ref_ptr.0 ≡ first.entry.ref_ptr.0) × (result.ref_ptr.1 ≡ rest_place first.now second.now + first.entry.ref_ptr.1) }
{
    &first[rest_place(first, second)..]
}
