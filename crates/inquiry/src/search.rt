// A capture read for a question, in whatever pieces it comes: the header, records as they come whole,
// and what is left moved to the front of the buffer.
ghost use Rattle.std.specs.Prelude.{◌≡◌};
ghost use Rattle.capture.specs.Typing.{typed};
ghost use Rattle.inquiry.specs.Searching.{start_of, bad_one, begun_on, at_front, is_settled, traced_on, got_of, ended_of, note_of, text_of};

use crate::words::{About, put_bad_header, put_cut, put_telling};
use capture::{Next, header_fits, next_record};
use cause::Thing;
use feed::Fed;
use pump::{advance, shift, within};
use trace::{Asked, Tracing, record_asked, trace};

// The table with what was noted, how many octets of input are there, whether the header is read,
// whether nothing that may come changes the answer, and whether the header is bad. Marks and no enum of stages: the
// definitions of `Sought` speak of each by itself.
#[derive(Clone, Copy)]
pub struct Search {
    pub asked: Asked,
    pub have: usize,
    pub begun: bool,
    pub over: bool,
    pub bad: bool,
}

// Before the first read.
#[tactic(auto, unfolding(crate::specs::Searching::start_of, text::specs::Putting::empty_table))]
pub fn start(label: u32, upto: u64) -> Search
    ensures { result ≡ start_of label upto }
{
    let table = text::empty_table(0);
    let row = table.row;
    Search {
        asked: Asked {
            row,
            tracing: Tracing {
                fed: table.fed,
                upto,
                marks: cause::anew(0),
                label,
            },
        },
        have: 0,
        begun: false,
        over: false,
        bad: false,
    }
}

fn bad_one(s: Search) -> Search
    ensures { result ≡ bad_one s }
{
    Search {
        over: true,
        bad: true,
        ..s
    }
}

// The header, once its octets are there. `gauge` reads it the same way: `headed` and `Sought` speak of the search itself, so
// what is shared are `within`, `shift` and `advance`.
fn begin(s: Search, buf: &mut [u8]) -> Search
    ensures { record { search = result; buf = buf.new } ≡ begun_on s buf.old }
{
    if s.begun {
        return s;
    }
    let n = within(s.have, buf);
    if n < 8 {
        return s;
    }
    if !header_fits(&buf[..n]) {
        return bad_one(s);
    }
    Search {
        have: shift(buf, 8, n),
        begun: true,
        ..s
    }
}

// The tracing, before the first octet of the input.
#[tactic(auto, unfolding(crate::specs::Searching::at_front))]
fn at_front(x: Tracing) -> Tracing
    ensures { result ≡ at_front x }
{
    Tracing {
        fed: Fed {
            used: 0,
            written: 0,
            ..x.fed
        },
        ..x
    }
}

fn is_settled(n: Next) -> bool
    ensures { result ≡ is_settled n }
{
    matches!(n, Next::Whole(_) | Next::Broken)
}

// The records that are there, and what is left behind them.
fn trace_on(s: Search, buf: &mut [u8], kept: &mut [u8]) -> Search
    ensures { record { search = result; buf = buf.new; kept = kept.new } ≡ traced_on s buf.old kept.old }
{
    let n = within(s.have, buf);
    let front = Asked {
        tracing: at_front(s.asked.tracing),
        ..s.asked
    };
    let asked = trace(front, &buf[..n], kept);
    let have = shift(&mut *buf, asked.tracing.fed.used, n);
    let over = is_settled(next_record(&buf[..have], 0));
    Search {
        asked,
        have,
        begun: true,
        over,
        bad: false,
    }
}

// So many octets were read behind those that are there.
pub fn got(s: Search, n: usize, buf: &mut [u8], kept: &mut [u8]) -> Search
    ensures { record { search = result; buf = buf.new; kept = kept.new } ≡ got_of s n buf.old kept.old }
{
    if s.over {
        return s;
    }
    let held = Search {
        have: advance(s.have, n, buf.len()),
        ..s
    };
    let begun = begin(held, &mut *buf);
    if begun.begun {
        return trace_on(begun, buf, kept);
    }
    begun
}

// The input has ended.
#[tactic(auto, unfolding(crate::specs::Searching::ended_of))]
pub fn ended(s: Search) -> Search
    ensures { result ≡ ended_of s }
{
    if s.begun { s } else { bad_one(s) }
}

#[tactic(auto, using(capture::proofs::Typing::words))]
fn put_note(out: &mut [u8], at: usize, n: Next, number: u64) -> usize
    ensures { record { buffer = out.new; at = result } ≡ typed (record { buffer = out.old; at = at }) (note_of n number) }
{
    match n {
        Next::Broken | Next::Short => put_cut(out, at, number),
        Next::Whole(_) | Next::End => at,
    }
}

// The text, from the buffer's front on.
pub fn put_text(out: &mut [u8], s: Search, buf: &[u8], kept: &[u8], thing: Thing) -> usize
    ensures { record { buffer = out.new; at = result } ≡ typed (record { buffer = out.old; at = 0 }) (text_of s buf.now kept.now thing) }
{
    let x = s.asked.tracing;
    let f = record_asked(s.asked);
    let about = About {
        label: x.label,
        thing,
        marks: x.marks,
        clock: x.fed.head.clock,
        kept,
    };
    let at = put_telling(&mut *out, 0, f, about);
    if s.bad {
        return put_bad_header(out, at);
    }
    let n = within(s.have, buf);
    put_note(out, at, next_record(&buf[..n], 0), x.fed.number)
}
