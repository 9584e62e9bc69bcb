// The records of an index, entry by entry.
ghost use Rattle.std.specs.Prelude.{◌≡◌};
ghost use Rattle.indexing.specs.Filling.{unfilled, stopped, onward, reads_for, filled_by, fill_one, fill_all};

use crate::Filling;
use call_log::read_to;
use octets::from_place;
use session::Session;

// No reading is past this.
const NEVER: u64 = u64::MAX;

// There is no room for it.
fn stopped(x: Filling) -> Filling
    ensures { result ≡ stopped x }
{
    Filling { count: x.at, ..x }
}

fn onward(x: Filling) -> usize
    ensures { result ≡ onward x }
{
    if x.at < x.count { x.at + 1 } else { x.at }
}

fn reads_for(x: Filling) -> usize
    ensures { result ≡ reads_for x }
{
    if x.at == 0 { 0 } else { 256 }
}

// What stands at the entry, and the next one.
pub(crate) fn next_entry(x: Filling, log: &[u8]) -> Filling
    ensures { result ≡ filled_by x log.now }
{
    let rest = from_place(log, x.place);
    let e = read_to(rest, x.label, x.point, reads_for(x), NEVER);
    Filling {
        point: e.point,
        place: log.len() - e.left,
        at: onward(x),
        ..x
    }
}

// One entry: the record that stands there is stored.
pub fn fill_one(records: &mut [Session], x: Filling, log: &[u8]) -> Filling
    ensures { record { outcome = result; row = records.new } ≡ fill_one records.old x log.now }
{
    if x.at >= records.len() {
        return stopped(x);
    }
    let d = next_entry(x, log);
    records[x.at] = d.point.session;
    d
}

// Whether an entry is still to be filled in.
pub(crate) fn is_unfilled(x: Filling) -> bool
    ensures { result ≡ unfilled x }
{
    x.at < x.count
}

// All entries that are left.
pub fn fill(records: &mut [Session], from: Filling, log: &[u8]) -> Filling
    ensures { record { outcome = result; row = records.new } ≡ fill_all records.old from log.now }
{
    let mut x = from;
    while is_unfilled(x) {
        x = fill_one(&mut *records, x, log);
    }
    x
}
