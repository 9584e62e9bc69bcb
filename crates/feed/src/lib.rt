// A piece of a capture fed to a table: each whole record is a call on the row, and its line goes
// into a lent output. Nobody can touch the row between two records, and a call leaves a row in order
// in order: so 26 is asked once.
#![tactic(auto)]

mod asking;
mod calls;
mod records;
mod watching;

ghost use Rattle.std.specs.Prelude.{◌≡◌};
ghost use Rattle.table.specs.Table.{in_order};
ghost use Rattle.step.specs.Stepping.{table_of};
ghost use Rattle.feed.specs.Feeding.{feed_of};
ghost use Rattle.feed.specs.Calling.{Turns};

use asking::is_ordered;
pub use calls::{other_call, receive_call};
use capture::record_at;
use records::{answer_line, message_line, more};
pub use records::{behind, number_after};
use session::Session;
use table::Head;
pub use watching::{Watch, session_before, watch_row};

// How far a table is fed: clock and set, records so far, octets used and written.
#[derive(Clone, Copy)]
pub struct Fed {
    pub head: Head,
    pub number: u64,
    pub used: usize,
    pub written: usize,
}

// One record: its call, and its line. It takes octets of the input, whatever `sound` is. Where it
// brings a message nothing is told, and room for what is told is not made. (d) The lent slices go one by
// one, here and in `watching`: of a struct with them each contract would name `row` and `out` behind two
// references, and it would be lent anew in each turn.
fn turn(
    row: &mut [Session],
    hints: &mut [u8],
    out: &mut [u8],
    sound: bool,
    f: Fed,
    input: &[u8],
) -> Fed
    ensures { Turns row.old out.old sound f input.now result row.new out.new }
{
    let r = record_at(input, f.used);
    if r.kind == 5 {
        let o = receive_call(row, hints, sound, f, r, input);
        return message_line(out, f, input, r, o);
    }
    let o = other_call(row, hints, sound, f, r, input);
    answer_line(out, f, input, r, o)
}

// The records, one after the other. `sound` is whether the row is in order. (d) A feed is no `Watch`:
// it asks about no label, for which each record would have a session looked for, and its line is
// written from all that a call tells, which `keep` does not see.
fn feed_known(
    row: &mut [Session],
    hints: &mut [u8],
    out: &mut [u8],
    sound: bool,
    from: Fed,
    input: &[u8],
) -> Fed
    ensures { (sound ≡ in_order (table_of row.entry.now from.head)) → (record { row = row.exit.now; fed = result; out = out.new } ≡ feed_of row.entry.now from input.now out.old) }
{
    let mut f = from;
    while more(f, input, out.len()) {
        f = turn(&mut *row, &mut *hints, &mut *out, sound, f, input);
    }
    f
}

// As many whole records as stand in the input and lines as fit into the output.
pub fn feed_row(row: &mut [Session], from: Fed, input: &[u8], out: &mut [u8]) -> Fed
    ensures { record { row = row.exit.now; fed = result; out = out.new } ≡ feed_of row.entry.now from input.now out.old }
{
    let sound = is_ordered(&*row, from.head);
    let mut hints = [0u8; 256];
    feed_known(row, &mut hints, out, sound, from, input)
}
