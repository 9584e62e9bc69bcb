// A capture read for the spacing of one label, in whatever pieces it comes: the header, records as they
// come whole, and what is left moved to the front of the buffer.
ghost use Rattle.std.specs.Prelude.{◌≡◌};
ghost use Rattle.capture.specs.Typing.{typed};
ghost use Rattle.pump.specs.Pumping.{cannot_mend};
ghost use Rattle.gauge.specs.Gauging.{start_of, begun_on, at_front, paced_on, got_of, text_of};

use crate::words::put_spacing;
use account::finish;
use capture::{Next, header_fits, next_record};
use feed::Fed;
use pace::{Asked, Pacing, pace};
use pump::{advance, shift, within};

// The table with what is kept of the label, how many octets of input are there, whether the header is
// read, and whether nothing that may come changes the numbers. Marks and no enum of stages: `Held` of specs/
// speaks of each by itself, and the end may be there before the header is.
#[derive(Clone, Copy)]
pub struct Gauge {
    pub asked: Asked,
    pub have: usize,
    pub begun: bool,
    pub over: bool,
}

// Before the first read.
#[tactic(auto, unfolding(crate::specs::Gauging::start_of, text::specs::Putting::empty_table))]
pub fn start(label: u32) -> Gauge
    ensures { result ≡ start_of label }
{
    let table = text::empty_table(0);
    let row = table.row;
    Gauge {
        asked: Asked {
            row,
            pacing: Pacing {
                fed: table.fed,
                pace: interval::at_rest(),
                label,
            },
        },
        have: 0,
        begun: false,
        over: false,
    }
}

// The header, once its octets are there. One that does not fit is the end. `inquiry` reads it the same way: `headed` and
// `Held` speak of the gauge itself, so what is shared are `within`, `shift` and `advance`.
fn begin(g: Gauge, buf: &mut [u8]) -> Gauge
    ensures { record { gauge = result; buf = buf.new } ≡ begun_on g buf.old }
{
    if g.begun {
        return g;
    }
    let n = within(g.have, buf);
    if n < 8 {
        return g;
    }
    if !header_fits(&buf[..n]) {
        return Gauge { over: true, ..g };
    }
    Gauge {
        have: shift(buf, 8, n),
        begun: true,
        ..g
    }
}

// The pacing, before the first octet of the input.
#[tactic(auto, unfolding(crate::specs::Gauging::at_front))]
fn at_front(x: Pacing) -> Pacing
    ensures { result ≡ at_front x }
{
    Pacing {
        fed: Fed {
            used: 0,
            written: 0,
            ..x.fed
        },
        ..x
    }
}

fn cannot_mend(n: Next) -> bool
    ensures { result ≡ cannot_mend n }
{
    matches!(n, Next::Broken)
}

// The records that are there, and what is left behind them.
fn pace_on(g: Gauge, buf: &mut [u8]) -> Gauge
    ensures { record { gauge = result; buf = buf.new } ≡ paced_on g buf.old }
{
    let n = within(g.have, buf);
    let front = Asked {
        pacing: at_front(g.asked.pacing),
        ..g.asked
    };
    let asked = pace(front, &buf[..n]);
    let have = shift(&mut *buf, asked.pacing.fed.used, n);
    let over = cannot_mend(next_record(&buf[..have], 0));
    Gauge {
        asked,
        have,
        begun: true,
        over,
    }
}

// So many octets were read behind those that are there.
pub fn got(g: Gauge, n: usize, buf: &mut [u8]) -> Gauge
    ensures { record { gauge = result; buf = buf.new } ≡ got_of g n buf.old }
{
    if g.over {
        return g;
    }
    let held = Gauge {
        have: advance(g.have, n, buf.len()),
        ..g
    };
    let begun = begin(held, &mut *buf);
    if begun.begun {
        return pace_on(begun, buf);
    }
    begun
}

// The line, from the buffer's front on.
#[tactic(auto, unfolding(crate::specs::Gauging::text_of))]
pub fn put_text(out: &mut [u8], g: Gauge) -> usize
    ensures { record { buffer = out.new; at = result } ≡ typed (record { buffer = out.old; at = 0 }) (text_of g) }
{
    put_spacing(out, 0, finish(g.asked.pacing.pace.account))
}
