// An index asked. The entry is found by `halving`'s search; then each entry that it looked at is
// judged with its record, on the way to the one that was found.
ghost use Rattle.std.specs.Prelude.{min, ◌≡◌};
ghost use Rattle.call_log.specs.Reading.{told_in};
ghost use Rattle.indexing.specs.Asking.{room_of, fits_at, ask_of};

use crate::IndexHead;
use crate::asking::{answer_at, ask_refusal};
use crate::judging::{Ranged, judged};
use call_log::{Answer, entry_fits};
use capture::get_at;
use halving::find;
use octets::Refusal;
use session::Session;
use table::absent;

// The entries of three lent slices, and what they are judged by: the octets of the log, and the label.
#[derive(Clone, Copy)]
struct Lent<'a> {
    size: u64,
    label: u32,
    clocks: &'a [u64],
    places: &'a [u64],
    records: &'a [Session],
}

impl<'a> Ranged for Lent<'a> {
    ghost in_range = { λ e k. fits_at e.size e.clocks.now e.places.now e.records.now e.label k };

    fn fits_at(&self, k: usize) -> bool {
        entry_fits(
            get_at(self.records, k, absent()),
            get_at(self.clocks, k, 0),
            get_at(self.places, k, 0),
            self.label,
            self.size,
        )
    }
}

// The least length of the three slices.
pub(crate) fn room_of(clocks: usize, places: usize, records: usize) -> usize
    ensures { result ≡ room_of clocks places records }
{
    clocks.min(places.min(records))
}

// Asked of a label at a reading: 1, 19, 20, 19, 2, or the report and the number of entries that were
// looked at.
pub fn ask(
    log: &[u8],
    head: IndexHead,
    clocks: &[u64],
    places: &[u64],
    records: &[Session],
    label: u32,
    reading: u64,
) -> Answer
    ensures { told_in result ≡ ask_of log.now head clocks.now places.now records.now label reading }
{
    let room = room_of(clocks.len(), places.len(), records.len());
    ask_refusal(log, head, label, reading, room)?;
    let f = find(clocks, head.count as usize, reading);
    let entries = Lent {
        size: log.len() as u64,
        label,
        clocks,
        places,
        records,
    };
    if !judged(&entries, f.place, head.count as usize) {
        return Err(Refusal::BadIndex);
    }
    let s = get_at(records, f.place, absent());
    let clock = get_at(clocks, f.place, 0);
    let place = get_at(places, f.place, 0) as usize;
    answer_at(log, place, s, clock, label, reading, f.looked)
}
