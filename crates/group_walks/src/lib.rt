// Calls that concern groups go one of two ways, by a test. A crate has a function, and this one says
// how many the ways are.
#![tactic(auto)]

ghost use Rattle.std.specs.Prelude.{◌≡◌};

// The two ways of a call that goes by a test.
pub fn ways() -> usize
    ensures { result ≡ 2 }
{
    2
}
