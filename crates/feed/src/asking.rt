// What is made of a record for its call.
ghost use Rattle.std.specs.Prelude.{◌≡◌};
ghost use Rattle.table.specs.Table.{in_order};
ghost use Rattle.step.specs.Stepping.{table_of};
ghost use Rattle.feed.specs.Calling.{opening_in, sought_in, seen_at, body_from, arrival_in, request_in};

use crate::Fed;
use capture::{Record, body_at, settings_in};
use row::scan_row;
use scan::{Summary, Target};
use session::Session;
use step::{Arrival, Opening, Request};
use table::Head;

// Whether the row is in order. No label and no discriminator is looked for.
pub fn is_ordered(row: &[Session], head: Head) -> bool
    ensures { result ≡ in_order (table_of row.now head) }
{
    let nothing = Target {
        label: 0,
        discriminator: 0,
    };
    scan_row(row, head, nothing).sound
}

pub fn opening_in(input: &[u8], f: Fed, r: Record) -> Opening
    ensures { result ≡ opening_in input.now f r }
{
    Opening {
        settings: settings_in(r.label, body_at(input, f.used, r.size as usize)),
        reading: r.time,
    }
}

// The set in which the label is looked for: a tick looks for none.
pub fn sought_in(f: Fed, r: Record) -> u64
    ensures { result ≡ sought_in f r }
{
    if r.kind == 0 { 0 } else { f.head.occupied }
}

pub fn seen_at(place: usize, sound: bool) -> Summary
    ensures { result ≡ seen_at place sound }
{
    Summary {
        place,
        sound,
        rival: false,
        full: false,
    }
}

fn body_from(used: usize) -> usize
    ensures { result ≡ body_from used }
{
    used.saturating_add(16)
}

pub fn arrival_in(f: Fed, r: Record, place: usize, sound: bool) -> Arrival
    ensures { result ≡ arrival_in f r place sound }
{
    Arrival {
        head: f.head,
        reading: r.time,
        place,
        from: body_from(f.used),
        size: r.size as usize,
        sound,
    }
}

// The request of each kind that brings numbers alone; a CC has 28 octets to write, a CV 44.
pub fn request_in(r: Record) -> Request
    ensures { result ≡ request_in r }
{
    match r.kind {
        0 => Request::Tick(r.time),
        2 => Request::Close(r.label, r.time),
        3 => Request::Lock(r.label, r.time),
        4 => Request::Unlock(r.label, r.time),
        6 => Request::ReportOn(r.label),
        7 => Request::WriteCc(r.label, 28),
        _ => Request::WriteCv(r.label, 44),
    }
}
