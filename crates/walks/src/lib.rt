// What a call at one place of a row comes to, whatever its records are, and what a test says of its
// two branches: what matters stands in specs/ and proofs/. A crate has a function, and this one is
// where every pass begins.
#![tactic(auto)]

ghost use Rattle.std.specs.Prelude.{◌≡◌};

// The first place of a row.
pub fn first_place() -> usize
    ensures { result ≡ 0 }
{
    0
}
