// The lent row: its records taken out and stored, the scan over it, the search in it, and the calls.
#![tactic(auto)]

mod finding;
mod known;

ghost use Rattle.std.specs.Prelude.{◌≡◌, get_or, set};
ghost use Rattle.table.specs.Table as Table;
ghost use Rattle.scan.specs.Passing.{pass_over, summary_of};

pub use finding::{find, place_known};
pub use known::{obey_at, open_at, receive_at};
use scan::{Progress, Summary, Target};
use session::Session;
use table::Head;

// The record at a place; past the row's end there is none. An early end: an `if` with a value copies the record, which took
// 47 to 70 instructions more a call.
pub fn record_at(row: &[Session], place: usize) -> Session
    ensures { result ≡ get_or row.now place Table.absent }
{
    if place >= row.len() {
        return table::absent();
    }
    row[place]
}

// A record stored at a place; past the row's end nothing is stored.
pub fn put_record(row: &mut [Session], place: usize, r: Session)
    ensures { row.new ≡ set row.old place r }
{
    if place < row.len() {
        row[place] = r;
    }
}

// The pass over the occupied places: each record by itself, its key pair noted at its place in a lent
// run of numbers, and the key of its group 64 places behind that. A `while`: the end is `scan`'s to say, of places left and
// of records, and a `for` over the row would say half of it once more.
fn pass_over(row: &[Session], pairs: &mut [u64], from: Progress) -> Progress
    ensures { record { progress = result; pairs = pairs.new } ≡ pass_over 0 (record { progress = from; pairs = pairs.old }) row.now }
{
    let mut s = from;
    let mut i = 0;
    while scan::more(s, i, row.len()) {
        s = scan::take_in(&mut *pairs, s, i, row[i]);
        i += 1;
    }
    s
}

// The scan: one pass over the occupied places of the row, and what the keys noted there say.
#[tactic(auto, unfolding(scan::specs::Passing::pass_of, scan::specs::Passing::summary_of))]
pub fn scan_row(row: &[Session], head: Head, target: Target) -> Summary
    ensures { result ≡ summary_of row.now head target }
{
    let mut noted = [0u64; 128];
    let s = pass_over(row, &mut noted, scan::start(row.len(), head, target));
    scan::judged(&noted, s)
}
