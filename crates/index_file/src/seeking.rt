// The entry of an index file that an answer comes from. It is found by `halving`'s search; then each
// entry that was looked at is judged with its record, on the way to the one that was found.
ghost use Rattle.std.specs.Prelude.{◌≡◌, ◌+◌, ◌≤◌};
ghost use Rattle.octets.specs.Refusals.{refusal_in};
ghost use Rattle.index_file.specs.Files.{place_of, file_fits, head_of, clock_at, clocks_in, entry_at};
ghost use Rattle.index_file.specs.Seeking.{fits_in, seek_refusal, said_by, said_of, told_by, sought_by, sought_in, asked_from};

use crate::reading::{entry_in, head_in};
use crate::{Entry, Numbered, Sought, Used};
use call_log::{Told, entry_fits};
use halving::find;
use indexing::{IndexHead, Ranged, answer_at, head_fits, judged};
use octets::{Refusal, from_place, get_u64};

// The greatest reading.
const LATEST: u64 = 9_223_372_036_854_775_807;

// `TPX`, version 1, three zero bytes, as one number: the definition `mark_of` is one.
const MARK: u64 = 6_075_452_654_362_820_608;

// Where entry k stands in the file; there are at most 256.
pub fn place_of(k: usize) -> usize
    ensures { result ≡ place_of k }
{
    24 + 252 * k.min(256)
}

// The mark, and as many octets as the entries that are counted take.
#[tactic(auto, unfolding(crate::specs::Files::file_fits))]
fn file_fits(index: &[u8]) -> bool
    ensures { result ≡ file_fits index.now }
{
    get_u64(index, 0) == MARK && index.len() == 24 + 252 * head_in(index).count as usize
}

// A file of another form is an index without entries.
#[tactic(auto, unfolding(crate::specs::Files::head_of))]
fn head_of(index: &[u8]) -> IndexHead
    ensures { result ≡ head_of index.now }
{
    if file_fits(index) {
        head_in(index)
    } else {
        IndexHead::default()
    }
}

fn clock_at(index: &[u8], k: usize) -> u64
    ensures { result ≡ clock_at index.now k }
{
    get_u64(from_place(index, place_of(k)), 0)
}

fn clocks_in(index: &[u8]) -> [u64; 256]
    ensures { result ≡ clocks_in index.now }
{
    let mut clocks = [0u64; 256];
    for k in 0..256 {
        clocks[k] = clock_at(index, k);
    }
    clocks
}

fn entry_at(index: &[u8], k: usize) -> Entry
    ensures { result ≡ entry_at index.now k }
{
    entry_in(from_place(index, place_of(k)))
}

// Whether entry k is in range.
fn fits_in(index: &[u8], label: u32, size: u64, k: usize) -> bool
    ensures { result ≡ fits_in index.now label size k }
{
    let e = entry_at(index, k);
    entry_fits(e.session, e.clock, e.place, label, size)
}

// The entries of a file, and what they are judged by: the label, and the octets of the log.
#[derive(Clone, Copy)]
struct Filed<'a> {
    index: &'a [u8],
    label: u32,
    size: u64,
}

impl<'a> Ranged for Filed<'a> {
    ghost in_range = { λ f k. fits_in f.index.now f.label f.size k };

    fn fits_at(&self, k: usize) -> bool {
        fits_in(self.index, self.label, self.size, k)
    }
}

// 1 for a reading above the greatest, 19 for a log with another header, 20 for an index of another
// label or log.
fn seek_refusal(
    h: IndexHead,
    marked: bool,
    size: u64,
    label: u32,
    reading: u64,
) -> Result<(), Refusal>
    ensures { refusal_in result ≡ seek_refusal h marked size label reading }
{
    if LATEST < reading {
        return Err(Refusal::Late);
    }
    if !marked {
        return Err(Refusal::BadLog);
    }
    if !head_fits(h, label, size, 256) {
        return Err(Refusal::BadIndex);
    }
    Ok(())
}

// Of so many entries, 1 to 256.
fn sought_by(index: &[u8], count: usize, size: u64, label: u32, reading: u64) -> Sought
    ensures { said_of result ≡ sought_by index.now count size label reading }
{
    let clocks = clocks_in(index);
    let f = find(&clocks, count, reading);
    let file = Filed { index, label, size };
    if !judged(&file, f.place, count) {
        return Err(Refusal::BadIndex);
    }
    Ok(Used {
        entry: entry_at(index, f.place),
        looked: f.looked,
    })
}

// What is sought for a label at a reading, of an index file and of a log that has a good header or not
// and so many octets: the entry that is used and the number of entries looked at; or 1, 19, 20.
pub fn sought_in(index: &[u8], marked: bool, size: u64, label: u32, reading: u64) -> Sought
    ensures { said_of result ≡ sought_in index.now marked size label reading }
{
    let h = head_of(index);
    seek_refusal(h, marked, size, label, reading)?;
    sought_by(index, h.count as usize, size, label, reading)
}

// The answer, from the octets of the log behind the entry's place.
#[tactic(auto, unfolding(crate::specs::Seeking::asked_from))]
pub fn asked_from<N: Numbered>(
    x: Sought<N>,
    window: &[u8],
    label: u32,
    reading: u64,
) -> Result<Told, N>
    ensures { told_by N.numbered result ≡ asked_from (said_by N.numbered x) window.now label reading }
{
    let u = x?;
    let e = u.entry;
    match answer_at(window, 0, e.session, e.clock, label, reading, u.looked) {
        Ok(told) => Ok(told),
        Err(r) => Err(N::refused(r)),
    }
}
