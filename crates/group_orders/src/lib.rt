// Two messages of one reading on two labels, in either order, on a table with dual-homing groups. What
// matters stands in specs/ and proofs/; a crate has a function, and this one is the last reading at
// which two messages can come.
#![tactic(auto)]

ghost use Rattle.std.specs.Prelude.{◌≡◌};
ghost use Rattle.rules.specs.Times.{latest};

// The greatest reading.
pub fn last_reading() -> u64
    ensures { result ≡ latest }
{
    9_223_372_036_854_775_807
}
