// What a log says of a label at a reading, from the rules paper alone: the calls of the log are read
// all, and nothing of a table. What matters stands in specs/ and proofs/; a crate has a function, and
// this one is the last reading that a log can be asked at.
#![tactic(auto)]

ghost use Rattle.std.specs.Prelude.{◌≡◌};
ghost use Rattle.rules.specs.Times.{latest};

// The greatest reading.
pub fn last_reading() -> u64
    ensures { result ≡ latest }
{
    9_223_372_036_854_775_807
}
