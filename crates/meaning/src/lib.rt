// The rules paper from the calls alone. What matters stands in specs/ and proofs/; a crate has a
// function, and this one is the paper's own first clock.
#![tactic(auto)]

ghost use Rattle.std.specs.Prelude.{◌≡◌};
ghost use Rattle.meaning.specs.Histories.{start, clock_of};

// The clock before any call.
pub fn first_clock() -> u64
    ensures { result ≡ clock_of start }
{
    0
}
