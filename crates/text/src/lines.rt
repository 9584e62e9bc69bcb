// The lines of a capture's records and how it ends, put part by part.
ghost use Rattle.std.specs.Prelude.{◌≡◌, ◌+◌, ◌≤◌, cond, [], length, drop};
ghost use Rattle.meaning.specs.Histories.{start};
ghost use Rattle.text.specs.Text.{cut, text_after};
ghost use Rattle.text.specs.Putting.{counted, putting, empty_table, rewound};

use crate::Count;
use capture::{is_whole, next_record};
use feed::Fed;
use octets::put_octets;
use owner::{Feeding, feed};

// A table made empty, before the record at a place.
#[tactic(auto, unfolding(crate::specs::Putting::empty_table))]
pub fn empty_table(used: usize) -> Feeding
    ensures { result ≡ empty_table used }
{
    Feeding {
        row: [table::absent(); 64],
        fed: Fed {
            head: table::first_head(),
            number: 0,
            used,
            written: 0,
        },
    }
}

// The table with an output in which nothing is written.
#[tactic(auto, unfolding(crate::specs::Putting::rewound))]
fn rewind(t: Feeding) -> Feeding
    ensures { result ≡ rewound t }
{
    Feeding {
        fed: Fed {
            written: 0,
            ..t.fed
        },
        ..t
    }
}

fn count(room: usize, at: usize, octets: usize) -> Count
    ensures { result ≡ counted room (at + octets) }
{
    if room < at {
        return Count {
            fits: false,
            octets: 0,
        };
    }
    if room - at < octets {
        return Count {
            fits: false,
            octets: 0,
        };
    }
    Count {
        fits: true,
        octets: at + octets,
    }
}

// A part of the text at a place; what lies past the buffer's end is dropped.
#[tactic(auto, unfolding(crate::specs::Putting::putting))]
fn put_part(out: &mut [u8], at: usize, room: usize, part: &[u8]) -> Count
    ensures { record { count = result; out = out.new } ≡ putting out.old at room part.now }
{
    put_octets(out, at, part);
    count(room, at, part.len())
}

// Where something is left, that the capture is cut.
#[tactic(auto, unfolding(crate::specs::Putting::putting))]
fn put_end(out: &mut [u8], at: usize, room: usize, left: bool) -> Count
    ensures { record { count = result; out = out.new } ≡ putting out.old at room (cond left cut []) }
{
    if left {
        put_part(out, at, room, b"cut\n")
    } else {
        put_part(out, at, room, b"")
    }
}

// All lines of a capture and how it ends, from the buffer's front on; what lies past its end is
// dropped. It stops where the text has more octets than the room. Many lines are fed at a time, so
// that the table's row is not copied for every record.
#[tactic(auto, unfolding(crate::specs::Putting::putting, crate::specs::Text::text_after))]
pub(crate) fn put_lines(capture: &[u8], out: &mut [u8], room: usize) -> Count
    requires { length out.old ≤ room }
    ensures { record { count = result; out = out.new } ≡ putting out.old 0 room (text_after start 0 (drop 8 capture.now)) }
{
    let mut t = empty_table(8);
    let mut c = Count {
        fits: true,
        octets: 0,
    };
    while c.fits && is_whole(next_record(capture, t.fed.used)) {
        let mut lines = [0u8; 4096];
        t = feed(rewind(t), capture, &mut lines);
        let n = t.fed.written;
        c = put_part(&mut *out, c.octets, room, &lines[..n]);
    }
    if !c.fits {
        return c;
    }
    put_end(out, c.octets, room, t.fed.used < capture.len())
}
