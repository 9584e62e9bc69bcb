// How late, exactly: spacing errors as signed 64-bit numbers, and the account of many of them. What
// does not fit marks the account, which stays so; only the finished numbers are refused, with 21.
#![tactic(auto)]

mod numbers;

ghost use Rattle.std.specs.Prelude.{◌≡◌};
ghost use Rattle.account.specs.Figures.{error_of, none, one};
ghost use Rattle.account.specs.Accounts.{signed, signed_in, counted_in, spaced_in, kept, spent, made, combined, added, finished_of};

pub use numbers::size_of;
use numbers::{MOST, greatest_of, least_of, negative, positive, sum_in, total};
use octets::Refusal;

// What is counted over the pairs so far. over: a number does not fit; a mark and no Option, since what is kept beside a table
// (`Pacing`) is said of every field.
#[derive(Clone, Copy)]
pub struct Account {
    pub pairs: u64,
    pub least: i64,
    pub greatest: i64,
    pub sum: i64,
    pub sizes: u64,
    pub over: bool,
}

// The five numbers of a finished account. Where there is no pair there is no least and no greatest.
#[derive(Clone, Copy, Debug, PartialEq, Eq)]
pub struct Spacing {
    pub pairs: u64,
    pub least: i64,
    pub greatest: i64,
    pub sum: i64,
    pub sizes: u64,
}

// The later reading minus the earlier, minus the period, of any readings.
#[tactic(auto, unfolding(crate::specs::Figures::error_of))]
pub fn error_of(later: u64, earlier: u64, period: u32) -> Option<i64>
    ensures { signed_in result ≡ signed (error_of later earlier period) }
{
    let p = period as u64;
    if later < earlier {
        return negative(earlier - later, p);
    }
    let d = later - earlier;
    if d < p {
        return negative(p - d, 0);
    }
    positive(d - p)
}

// No pair yet.
pub fn nothing() -> Account
    ensures { result ≡ kept none }
{
    Account {
        pairs: 0,
        least: 0,
        greatest: 0,
        sum: 0,
        sizes: 0,
        over: false,
    }
}

fn overrun() -> Account
    ensures { result ≡ spent }
{
    Account {
        pairs: 0,
        least: 0,
        greatest: 0,
        sum: 0,
        sizes: 0,
        over: true,
    }
}

fn single(e: i64) -> Account
    ensures { result ≡ kept (one e) }
{
    Account {
        pairs: 1,
        least: e,
        greatest: e,
        sum: e,
        sizes: size_of(e),
        over: false,
    }
}

#[tactic(auto, unfolding(crate::specs::Accounts::made))]
fn make(
    pairs: Option<u64>,
    least: i64,
    greatest: i64,
    sum: Option<i64>,
    sizes: Option<u64>,
) -> Account
    ensures { result ≡ made (counted_in pairs) least greatest (signed_in sum) (counted_in sizes) }
{
    let Some(pairs) = pairs else {
        return overrun();
    };
    let Some(sum) = sum else {
        return overrun();
    };
    let Some(sizes) = sizes else {
        return overrun();
    };
    Account {
        pairs,
        least,
        greatest,
        sum,
        sizes,
        over: false,
    }
}

// Two accounts as one.
#[tactic(auto, unfolding(crate::specs::Accounts::combined))]
pub fn combine(a: Account, b: Account) -> Account
    ensures { result ≡ combined a b }
{
    if a.over {
        return overrun();
    }
    if b.over {
        return overrun();
    }
    let least = least_of(a.pairs, a.least, b.pairs, b.least);
    let greatest = greatest_of(a.pairs, a.greatest, b.pairs, b.greatest);
    let pairs = total(a.pairs, b.pairs);
    let sum = sum_in(a.sum, b.sum);
    let sizes = total(a.sizes, b.sizes);
    make(pairs, least, greatest, sum, sizes)
}

// One pair more, by its readings and the period.
#[tactic(auto, unfolding(crate::specs::Accounts::added, crate::specs::Figures::error_of))]
pub fn add_pair(a: Account, later: u64, earlier: u64, period: u32) -> Account
    ensures { result ≡ added a (error_of later earlier period) }
{
    match error_of(later, earlier, period) {
        Some(e) => combine(a, single(e)),
        None => overrun(),
    }
}

// The five numbers, or 21.
#[tactic(auto, unfolding(crate::specs::Accounts::finished_of))]
pub fn finish(a: Account) -> Result<Spacing, Refusal>
    ensures { spaced_in result ≡ finished_of a }
{
    if a.over {
        return Err(Refusal::NoFit);
    }
    if a.pairs > MOST {
        return Err(Refusal::NoFit);
    }
    if a.sizes > MOST {
        return Err(Refusal::NoFit);
    }
    Ok(Spacing {
        pairs: a.pairs,
        least: a.least,
        greatest: a.greatest,
        sum: a.sum,
        sizes: a.sizes,
    })
}
