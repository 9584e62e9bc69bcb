// A capture fed to a table in pieces, as if its octets came one piece after the other.
ghost use Rattle.std.specs.Counts.{IsPrefixLen};

use capture::Next;
use feed::Fed;
use owner::Feeding;
use stored::{further, put_text};

// An empty table in front of the first record.
fn empty_table() -> Feeding {
    let r = table::absent();
    let row = [r; 64];
    let head = table::first_head();
    let fed = Fed {
        head,
        number: 0,
        used: 8,
        written: 0,
    };
    Feeding { row, fed }
}

// All octets have come: what is left is no record.
fn end(fed: Fed, capture: &[u8], out: &mut [u8]) -> usize
    ensures { IsPrefixLen result out.new }
{
    if matches!(capture::next_record(capture, fed.used), Next::End) {
        return put_text(out, fed.written, b"");
    }
    put_text(out, fed.written, b"cut\n")
}

// The text of a capture whose octets come in pieces of so many.
pub(crate) fn text_of(capture: &[u8], size: usize, out: &mut [u8]) -> usize
    ensures { IsPrefixLen result out.new }
{
    if !capture::header_fits(capture) {
        return put_text(out, 0, b"bad header\n");
    }
    let mut table = empty_table();
    let mut have: usize = 8;
    for piece in octets::from_place(capture, 8).chunks(size.max(1)) {
        have = further(have, piece.len(), capture);
        table = owner::feed(table, &capture[..have], &mut *out);
    }
    end(table.fed, capture, out)
}
