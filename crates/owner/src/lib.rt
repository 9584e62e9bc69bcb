// A table by value, with a row of 64 records of its own, lent piece by piece to the feed.
#![tactic(auto)]

ghost use Rattle.std.specs.Prelude.{◌≡◌};
ghost use Rattle.feed.specs.Feeding.{feed_of};

use feed::{Fed, feed_row};
use session::Session;

// A table by value: its own row, and how far it is fed.
#[derive(Clone, Copy)]
pub struct Feeding {
    pub row: [Session; 64],
    pub fed: Fed,
}

// The feed of a table's own row.
pub fn feed(t: Feeding, input: &[u8], out: &mut [u8]) -> Feeding
    ensures { record { row = result.row; fed = result.fed; out = out.new } ≡ feed_of t.row t.fed input.now out.old }
{
    let mut row = t.row;
    let fed = feed_row(&mut row, t.fed, input, out);
    Feeding { row, fed }
}
