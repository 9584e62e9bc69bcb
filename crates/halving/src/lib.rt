// A search that halves the candidates, by calling itself, and tells how many it looked at.
#![tactic(auto)]

ghost use Rattle.std.specs.Prelude.{◌≡◌, ◌+◌, ◌≤◌, min, length};
ghost use Rattle.halving.specs.Search.{found};

// The place that was found, and how many entries were looked at.
#[derive(Clone, Copy)]
pub struct Found {
    pub place: usize,
    pub looked: usize,
}

// The last of the n candidates from `first` on whose clock is not later than `at`, the first being
// known to serve.
fn halve(clocks: &[u64], at: u64, first: usize, n: usize) -> Found
    requires { first + n ≤ length clocks.now }
    ensures { result ≡ found clocks.now at first n }
{
    if n < 2 {
        return Found {
            place: first,
            looked: 0,
        };
    }
    let half = n / 2;
    let middle = first + half;
    if clocks[middle] <= at {
        let later = halve(clocks, at, middle, n - half);
        return Found {
            place: later.place,
            looked: later.looked + 1,
        };
    }
    let earlier = halve(clocks, at, first, half);
    Found {
        place: earlier.place,
        looked: earlier.looked + 1,
    }
}

// The first `count` clocks are candidates, as far as there are so many.
pub fn find(clocks: &[u64], count: usize, at: u64) -> Found
    ensures { result ≡ found clocks.now at 0 (min count (length clocks.now)) }
{
    if clocks.len() < count {
        return halve(clocks, at, 0, clocks.len());
    }
    halve(clocks, at, 0, count)
}
