// A capture read for one label: each record is a call on the lent row, as a feed makes it, and what it
// is to the label is carried to the next. 26 is asked once, as in a feed.
ghost use Rattle.std.specs.Prelude.{◌≡◌, ℕ, List, Bool};
ghost use Rattle.session.specs.declared.Session.{Session};
ghost use Rattle.capture.specs.declared.Record.{Record};
ghost use Rattle.feed.specs.declared.Fed.{Fed};
ghost use Rattle.table.specs.Table.{in_order};
ghost use Rattle.step.specs.Stepping.{table_of};
ghost use Rattle.feed.specs.Watching.{Carried, Behind, WatchLaws, Turns, watch_of, before_of};

use crate::Fed;
use crate::asking::is_ordered;
use crate::calls::{other_call, receive_call};
use crate::records::fed_on;
use capture::{Record, body_at, record_at};
use row::find;
use session::Session;

// What is carried over the records of a capture that is read for one label, with the reading of a
// record: whether there is one, what it notes of the label's session before its call, and what is
// carried and what is kept in a lent buffer behind it.
pub trait Watch: Copy {
    type Note;

    ghost carried: { Carried Self };

    ghost noted: { Self → Session → Record → List ℕ → Self.Note };

    ghost kept_by: { Self → Fed → ℕ → Self.Note → List ℕ → List ℕ → Behind Self };

    // How far the table is fed.
    fn fed(self) -> Fed
        ensures { result ≡ carried.fed self };

    // The label that is asked about.
    fn label(self) -> u32
        ensures { result ≡ carried.label self };

    // A whole record stands next, and it is asked for.
    fn more(self, input: &[u8]) -> bool
        ensures { result ≡ carried.more self input.now };

    // What the record notes where it is accepted.
    fn note(self, before: Session, r: Record, body: &[u8]) -> Self::Note
        ensures { result ≡ noted self before r body.now };

    // The same by the row as it is before the call. Where a note needs the record alone, nothing is
    // looked for.
    fn note_before(self, row: &[Session], r: Record, body: &[u8]) -> Self::Note
        ensures { result ≡ noted self (before_of (table_of row.now (carried.fed self).head) (carried.label self) r) r body.now }
    {
        self.note(session_before(row, self.fed(), self.label(), r), r, body)
    }

    // What is known behind the record.
    fn keep(self, fed: Fed, answer: u32, note: Self::Note, body: &[u8], kept: &mut [u8]) -> Self
        ensures { record { carried = result; kept = kept.new } ≡ kept_by self fed answer note body.now kept.old };

    ghost laws: { WatchLaws carried noted kept_by };
}

// The record of the label's session before the call: a record of another label looks for none. No
// session has discriminator 0.
pub fn session_before(row: &[Session], f: Fed, label: u32, r: Record) -> Session
    ensures { result ≡ before_of (table_of row.now f.head) label r }
{
    let occupied = if r.label == label { f.head.occupied } else { 0 };
    row::record_at(row, find(row, occupied, label, 0))
}

// One record. It takes octets of the input, whatever `sound` is. A message goes by itself, as in a feed.
fn watch_turn<W: Watch>(
    row: &mut [Session],
    hints: &mut [u8],
    kept: &mut [u8],
    sound: bool,
    x: W,
    input: &[u8],
) -> W
    ensures { Turns W.carried row.old kept.old sound x input.now result row.new kept.new }
{
    let f = x.fed();
    let r = record_at(input, f.used);
    let body = body_at(input, f.used, r.size as usize);
    let n = x.note_before(&*row, r, body);
    if r.kind == 5 {
        let o = receive_call(row, hints, sound, f, r, input);
        return x.keep(
            fed_on(f, r, input.len(), o.head, f.written),
            o.answer,
            n,
            body,
            kept,
        );
    }
    let o = other_call(row, hints, sound, f, r, input);
    x.keep(
        fed_on(f, r, input.len(), o.head, f.written),
        o.answer,
        n,
        body,
        kept,
    )
}

// The records, one after the other. `sound` is whether the row is in order.
fn watch_known<W: Watch>(
    row: &mut [Session],
    hints: &mut [u8],
    kept: &mut [u8],
    sound: bool,
    from: W,
    input: &[u8],
) -> W
    ensures { (sound ≡ in_order (table_of row.old (W.carried.fed from).head)) → (record { row = row.new; carried = result; kept = kept.new } ≡ watch_of W.carried row.old from input.now kept.old) }
{
    let mut x = from;
    while x.more(input) {
        x = watch_turn(&mut *row, &mut *hints, &mut *kept, sound, x, input);
    }
    x
}

// As many whole records as stand in the input, and no more than are asked for.
pub fn watch_row<W: Watch>(row: &mut [Session], from: W, input: &[u8], kept: &mut [u8]) -> W
    ensures { record { row = row.new; carried = result; kept = kept.new } ≡ watch_of W.carried row.old from input.now kept.old }
{
    let sound = is_ordered(&*row, from.fed().head);
    let mut hints = [0u8; 256];
    watch_known(row, &mut hints, kept, sound, from, input)
}
