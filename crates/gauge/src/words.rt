// The line of a label's spacing: number of pairs, least, greatest, sum and sum of sizes; or 21.
ghost use Rattle.std.specs.Prelude.{◌≡◌, Ok};
ghost use Rattle.capture.specs.Typing.{typed};
ghost use Rattle.octets.specs.Refusals.{number_of};
ghost use Rattle.account.specs.Accounts.{spaced_in};
ghost use Rattle.gauge.specs.Words.{w_usage, signed_words, bound_words, sum_words, numbers_line, refused_line, spacing_line};

use account::{Spacing, size_of};
use capture::{put_decimal, put_words};
use octets::Refusal;

// A signed number.
#[tactic(auto, using(crate::proofs::Signs::parts))]
fn put_signed(out: &mut [u8], at: usize, z: i64) -> usize
    ensures { record { buffer = out.new; at = result } ≡ typed (record { buffer = out.old; at = at }) (signed_words z) }
{
    let size = size_of(z);
    if z < 0 {
        let a = put_words(&mut *out, at, b"-");
        put_decimal(out, a, size)
    } else {
        put_decimal(out, at, size)
    }
}

// A least or greatest error behind a space, where there is one. The mark stands beside it, no Option: `bound_words` takes
// both, as `Spaced` has them.
#[tactic(auto, using(crate::proofs::Signs::parts), unfolding(crate::specs::Words::bound_words))]
fn put_bound(out: &mut [u8], at: usize, there: bool, z: i64) -> usize
    ensures { record { buffer = out.new; at = result } ≡ typed (record { buffer = out.old; at = at }) (bound_words there z) }
{
    if there {
        let a = put_words(&mut *out, at, b" ");
        put_signed(out, a, z)
    } else {
        put_words(out, at, b" -")
    }
}

// Both sums, each behind a space, and the end of the line.
#[tactic(auto, using(crate::proofs::Signs::parts), unfolding(crate::specs::Words::sum_words))]
fn put_sums(out: &mut [u8], at: usize, sum: i64, sizes: u64) -> usize
    ensures { record { buffer = out.new; at = result } ≡ typed (record { buffer = out.old; at = at }) (sum_words sum sizes) }
{
    let a = put_words(&mut *out, at, b" ");
    let b = put_signed(&mut *out, a, sum);
    let c = put_words(&mut *out, b, b" ");
    let d = put_decimal(&mut *out, c, sizes);
    put_words(out, d, b"\n")
}

// The five numbers.
#[tactic(auto, using(crate::proofs::Signs::parts), unfolding(crate::specs::Words::numbers_line))]
fn put_numbers(out: &mut [u8], at: usize, s: Spacing) -> usize
    ensures { record { buffer = out.new; at = result } ≡ typed (record { buffer = out.old; at = at }) (numbers_line (spaced_in (Ok s))) }
{
    let paired = s.pairs != 0;
    let a = put_decimal(&mut *out, at, s.pairs);
    let b = put_bound(&mut *out, a, paired, s.least);
    let c = put_bound(&mut *out, b, paired, s.greatest);
    put_sums(out, c, s.sum, s.sizes)
}

#[tactic(auto, using(crate::proofs::Signs::parts))]
fn put_refused(out: &mut [u8], at: usize, refusal: Refusal) -> usize
    ensures { record { buffer = out.new; at = result } ≡ typed (record { buffer = out.old; at = at }) (refused_line (number_of refusal)) }
{
    let a = put_words(&mut *out, at, b"refused ");
    let b = put_decimal(&mut *out, a, u32::from(refusal) as u64);
    put_words(out, b, b"\n")
}

// The line.
#[tactic(auto, unfolding(crate::specs::Words::spacing_line))]
pub fn put_spacing(out: &mut [u8], at: usize, s: Result<Spacing, Refusal>) -> usize
    ensures { record { buffer = out.new; at = result } ≡ typed (record { buffer = out.old; at = at }) (spacing_line (spaced_in s)) }
{
    match s {
        Ok(s) => put_numbers(out, at, s),
        Err(refusal) => put_refused(out, at, refusal),
    }
}

// Words that are no label.
pub fn put_usage(out: &mut [u8], at: usize) -> usize
    ensures { record { buffer = out.new; at = result } ≡ typed (record { buffer = out.old; at = at }) w_usage }
{
    put_words(out, at, b"usage: spacing LABEL < capture\n")
}
