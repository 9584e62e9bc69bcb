// Two parties on one row with dual-homing groups: what a party is told rests on what it asks and the
// clock alone. What matters stands in specs/ and proofs/; a crate has a function, and this one is the
// first label of the second party.
#![tactic(auto)]

ghost use Rattle.std.specs.Prelude.{◌≡◌};
ghost use Rattle.rules.specs.Parties.{their_first};

// The first label that is theirs.
pub fn their_first() -> u32
    ensures { result ≡ their_first }
{
    500_000
}
