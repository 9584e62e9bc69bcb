// The table beside its row: the clock, and the 64-bit set of occupied places.
#![tactic(auto)]

mod occupied;

ghost use Rattle.std.specs.Prelude.{◌≡◌};
ghost use Rattle.table.specs.Table as Table;

use cv::{Agi, MepId};
pub use occupied::{is_occupied, lowest_free, open_count, with_place, without_place};
use rules::Settings;
use session::Session;

// What is lent beside the row.
#[repr(C)]
#[derive(Clone, Copy)]
pub struct Head {
    pub clock: u64,
    pub occupied: u64,
}

// Nothing open, at clock 0.
pub fn first_head() -> Head
    ensures { result ≡ record { clock = 0; occupied = 0 } }
{
    Head {
        clock: 0,
        occupied: 0,
    }
}

// What a place past the row's end gives. It is never stored.
pub fn absent() -> Session
    ensures { result ≡ Table.absent }
{
    let id = MepId {
        agi: Agi {
            first: 0,
            second: 0,
            third: 0,
            fourth: 0,
        },
        global: 0,
        node: 0,
        local: 0,
        kind: 0,
        group: 0,
        size: 0,
    };
    let settings = Settings {
        own: id,
        expected: id,
        label: 0,
        discriminator: 0,
        period: 0,
        followlink: 0,
        followlock: 0,
        mode: 0,
    };
    session::opened_at(settings, 0)
}
