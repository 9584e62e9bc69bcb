// The call of one record on the row: an open behind a scan, the others at the place
// of their label. A message goes by itself: most records bring one, and it tells nothing.
ghost use Rattle.std.specs.Prelude.{◌≡◌, true, false, eqb};
ghost use Rattle.feed.specs.Calling.{Calls};

use crate::Fed;
use crate::asking::{arrival_in, opening_in, request_in, seen_at, sought_in};
use capture::Record;
use row::{obey_at, open_at, place_known, receive_at, scan_row};
use scan::Summary;
use session::Session;
use step::{Outcome, opening_target};

// An open, behind a scan: beside a rival it asks how many sessions its party has open. Opens are few.
fn open_call(row: &mut [Session], sound: bool, f: Fed, r: Record, input: &[u8]) -> Outcome
    ensures { (eqb r.kind 1 ≡ true) → Calls row.old f r input.now sound result row.new }
{
    let g = opening_in(input, f, r);
    let seen = scan_row(&*row, f.head, opening_target(g));
    let s = Summary { sound, ..seen };
    open_at(row, f.head, s, g)
}

// The call of a record that brings a message, at the place of its label.
pub fn receive_call(
    row: &mut [Session],
    hints: &mut [u8],
    sound: bool,
    f: Fed,
    r: Record,
    input: &[u8],
) -> Outcome
    ensures { (eqb r.kind 5 ≡ true) → Calls row.old f r input.now sound result row.new }
{
    let place = place_known(&*row, hints, sought_in(f, r), r.label);
    receive_at(row, arrival_in(f, r, place, sound), input)
}

// The call of any other record: a request that brings numbers alone is at the place of its label.
pub fn other_call(
    row: &mut [Session],
    hints: &mut [u8],
    sound: bool,
    f: Fed,
    r: Record,
    input: &[u8],
) -> Outcome
    ensures { (eqb r.kind 5 ≡ false) → Calls row.old f r input.now sound result row.new }
{
    if r.kind == 1 {
        return open_call(row, sound, f, r, input);
    }
    let place = place_known(&*row, hints, sought_in(f, r), r.label);
    obey_at(row, f.head, seen_at(place, sound), request_in(r))
}
