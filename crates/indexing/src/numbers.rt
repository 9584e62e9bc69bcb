// The clocks and the places of an index, entry by entry.
ghost use Rattle.std.specs.Prelude.{◌≡◌};
ghost use Rattle.indexing.specs.Filling.{note_all};

use crate::Filling;
use crate::entries::{is_unfilled, next_entry};
use capture::put_at;

// All entries that are left.
pub fn fill_numbers(clocks: &mut [u64], places: &mut [u64], from: Filling, log: &[u8]) -> Filling
    ensures { record { filling = result; clocks = clocks.new; places = places.new } ≡ note_all clocks.old places.old from log.now }
{
    let mut x = from;
    while is_unfilled(x) {
        let next = next_entry(x, log);
        put_at(&mut *clocks, x.at, next.point.clock);
        put_at(&mut *places, x.at, next.place as u64);
        x = next;
    }
    x
}
