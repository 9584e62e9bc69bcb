// A table by value that is asked about one label: its own row of 64 records, and the pacing.
ghost use Rattle.std.specs.Prelude.{◌≡◌};
ghost use Rattle.pace.specs.Pacing.{pace_of};

use crate::{Pacing, pace_row};
use session::Session;

#[derive(Clone, Copy)]
pub struct Asked {
    pub row: [Session; 64],
    pub pacing: Pacing,
}

// The pacing of a table's own row.
pub fn pace(t: Asked, input: &[u8]) -> Asked
    ensures { record { row = result.row; pacing = result.pacing } ≡ pace_of t.row t.pacing input.now }
{
    let mut row = t.row;
    let pacing = pace_row(&mut row, t.pacing, input);
    Asked { row, pacing }
}
