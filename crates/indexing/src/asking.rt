// An index that is asked.
ghost use Rattle.std.specs.Prelude.{◌≡◌};
ghost use Rattle.octets.specs.Refusals.{refusal_in};
ghost use Rattle.call_log.specs.Reading.{told_in};
ghost use Rattle.indexing.specs.Asking.{head_fits, ask_refusal, answer_at};

use crate::IndexHead;
use call_log::{Answer, Point, answer_from, header_fits, read_to};
use octets::{Refusal, from_place};
use session::Session;

// The greatest reading.
const LATEST: u64 = 9_223_372_036_854_775_807;

// An index of this label and of a log of so many octets, with 1 to 256 entries, all of them in the room.
pub fn head_fits(h: IndexHead, label: u32, size: u64, room: usize) -> bool
    ensures { result ≡ head_fits h label size room }
{
    h.label == label
        && h.length == size
        && h.count != 0
        && h.count <= 256
        && h.count as usize <= room
}

// What an index is refused for before its entries are looked at. The room is the least length of the
// three slices that are lent.
#[tactic(auto, unfolding(crate::specs::Asking::ask_refusal))]
pub fn ask_refusal(
    log: &[u8],
    h: IndexHead,
    label: u32,
    reading: u64,
    room: usize,
) -> Result<(), Refusal>
    ensures { refusal_in result ≡ ask_refusal log.now h label reading room }
{
    if LATEST < reading {
        return Err(Refusal::Late);
    }
    if !header_fits(log) {
        return Err(Refusal::BadLog);
    }
    if !head_fits(h, label, log.len() as u64, room) {
        return Err(Refusal::BadIndex);
    }
    Ok(())
}

// The answer from the entry that is used: its place, its record and its clock.
#[tactic(auto, unfolding(crate::specs::Asking::answer_at))]
pub fn answer_at(
    log: &[u8],
    place: usize,
    s: Session,
    clock: u64,
    label: u32,
    reading: u64,
    looked: usize,
) -> Answer
    ensures { told_in result ≡ answer_at log.now place s clock label reading looked }
{
    let from = Point { session: s, clock };
    let e = read_to(from_place(log, place), label, from, 256, reading);
    answer_from(e, reading, looked)
}
