// Which PW of a dual-homing group is active, from the accepted commands alone. What matters stands in
// specs/ and proofs/; a crate has a function, and this one is the clock before any command.
#![tactic(auto)]

ghost use Rattle.std.specs.Prelude.{◌≡◌};
ghost use Rattle.switching.specs.Groups.{start, now_of};

// The clock before any command.
pub fn first_clock() -> u64
    ensures { result ≡ now_of start }
{
    0
}
