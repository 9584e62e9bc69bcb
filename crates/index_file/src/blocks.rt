// An index file built from a log block by block: an entry, then the 256 records behind it.
ghost use Rattle.std.specs.Prelude.{◌≡◌, ◌≤◌, not, eqb};
ghost use Rattle.index_file.specs.Blocks.{answer_at, indexing_by, indexing_of, start_of, onward, over_at, refused_at, after_block, block_of, head_built, finished_of};

use crate::seeking::place_of;
use crate::writing::{entry_octets, head_octets};
use crate::{Entry, Indexing, Numbered, Stage};
use call_log::{Ended, at_start, header_fits, read_to};
use indexing::IndexHead;
use octets::{Refusal, put_octets};

// No reading is past this.
const NEVER: u64 = u64::MAX;

// Before the first entry: 19 for a log with another header, of which the front is lent.
pub fn start(front: &[u8], label: u32) -> Indexing
    ensures { indexing_of result ≡ start_of front.now label }
{
    Indexing {
        point: at_start(),
        place: 8,
        count: 0,
        label,
        stage: if header_fits(front) {
            Stage::More
        } else {
            Stage::Refused(Refusal::BadLog)
        },
    }
}

// 256 records were read: another entry stands behind them.
fn onward<N: Numbered>(x: Indexing<N>, e: Ended, gone: usize) -> Indexing<N>
    ensures { indexing_by N.numbered result ≡ onward (indexing_by N.numbered x) e gone }
{
    Indexing {
        point: e.point,
        stage: Stage::More,
        ..over_at(x, gone)
    }
}

// The log ended.
fn over_at<N: Numbered>(x: Indexing<N>, gone: usize) -> Indexing<N>
    ensures { indexing_by N.numbered result ≡ over_at (indexing_by N.numbered x) gone }
{
    Indexing {
        place: x.place.saturating_add(gone as u64),
        count: x.count.min(255) + 1,
        stage: Stage::Over,
        ..x
    }
}

// A cut record, or one too many.
fn refused_at<N: Numbered>(x: Indexing<N>) -> Indexing<N>
    ensures { indexing_by N.numbered result ≡ refused_at (indexing_by N.numbered x) }
{
    Indexing {
        count: 0,
        stage: Stage::Refused(N::refused(Refusal::BadLog)),
        ..x
    }
}

// What the records behind an entry come to, of a window of so many octets.
#[tactic(auto, unfolding(crate::specs::Blocks::after_block))]
fn after_block<N: Numbered>(x: Indexing<N>, e: Ended, size: usize) -> Indexing<N>
    requires { e.left ≤ size }
    ensures { indexing_by N.numbered result ≡ after_block (indexing_by N.numbered x) e size }
{
    if e.spare == 0 {
        if x.count < 255 {
            return onward(x, e, size - e.left);
        }
        return refused_at(x);
    }
    if e.left == 0 {
        return over_at(x, size);
    }
    refused_at(x)
}

// One entry is put, and the records behind it are read in a window of the log from its place on.
pub fn block<N: Numbered>(out: &mut [u8], x: Indexing<N>, window: &[u8]) -> Indexing<N>
    ensures { record { indexing = indexing_by N.numbered result; out = out.new } ≡ block_of out.old (indexing_by N.numbered x) window.now }
{
    let o = entry_octets(Entry {
        clock: x.point.clock,
        place: x.place,
        session: x.point.session,
    });
    put_octets(&mut *out, place_of(x.count), &o);
    let e = read_to(window, x.label, x.point, 256, NEVER);
    after_block(x, e, window.len())
}

fn head_built<N: Numbered>(x: Indexing<N>) -> IndexHead
    ensures { result ≡ head_built (indexing_by N.numbered x) }
{
    IndexHead {
        length: x.place,
        label: x.label,
        count: x.count.min(256) as u32,
    }
}

// Its number is not 0.
fn is_refused<N: Numbered>(s: Stage<N>) -> bool
    ensures { result ≡ not (eqb (answer_at N.numbered s) 0) }
{
    matches!(s, Stage::Refused(_))
}

// The head is put before the entries, and how many octets the file has is told; a refusal writes
// nothing and has none.
#[tactic(auto, unfolding(crate::specs::Blocks::finished_of))]
pub fn finish<N: Numbered>(out: &mut [u8], x: Indexing<N>) -> usize
    ensures { record { size = result; out = out.new } ≡ finished_of out.old (indexing_by N.numbered x) }
{
    if is_refused(x.stage) {
        return 0;
    }
    let o = head_octets(head_built(x));
    put_octets(out, 0, &o);
    place_of(x.count)
}
