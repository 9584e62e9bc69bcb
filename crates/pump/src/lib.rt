// The core of `watch`: a capture read in whatever pieces it comes, its text written in whatever
// pieces it is taken. All but the two system calls is here, by value.
#![tactic(auto)]

mod failures;
mod moving;
mod turns;

ghost use Rattle.std.specs.Prelude.{◌≡◌, length};
ghost use Rattle.pump.specs.Pumping.{starting, pending_in, wants_of, got_of, took_of, turn_of};

pub use failures::put_failure;
pub use moving::{advance, part, shift, within};
use owner::Feeding;
use turns::{begin, feed_on, is_ready};

// The table, how many octets of input are there, which octets of output are still to be written,
// and whether the header is read, the input has ended, and the text is over. Three marks that may stand together and no
// enum of stages: the input may end before the header is read, or after the text is over.
#[derive(Clone, Copy)]
pub struct Pump {
    pub table: Feeding,
    pub have: usize,
    pub from: usize,
    pub to: usize,
    pub begun: bool,
    pub closed: bool,
    pub over: bool,
}

// What is wanted next: one read, one write, or nothing more.
#[derive(Clone, Copy, Debug, PartialEq, Eq)]
pub enum Wanted {
    Read,
    Write,
    Nothing,
}

#[tactic(auto, unfolding(crate::specs::Pumping::starting))]
pub fn start() -> Pump
    ensures { result ≡ starting }
{
    Pump {
        table: text::empty_table(0),
        have: 0,
        from: 0,
        to: 0,
        begun: false,
        closed: false,
        over: false,
    }
}

#[tactic(auto, unfolding(crate::specs::Pumping::wants_of))]
pub fn wants(p: Pump) -> Wanted
    ensures { result ≡ wants_of p }
{
    if p.from < p.to {
        return Wanted::Write;
    }
    if p.over {
        return Wanted::Nothing;
    }
    Wanted::Read
}

// The octets of output that are still to be written.
pub fn pending(p: Pump, out: &[u8]) -> &[u8]
    ensures { result.now ≡ pending_in p out.now }
{
    moving::part(out, p.from, p.to)
}

// So many octets were read behind those that are there; none is the end of the input.
#[tactic(auto, unfolding(crate::specs::Pumping::got_of))]
pub fn got(p: Pump, n: usize, buf: &[u8]) -> Pump
    ensures { result ≡ got_of p n (length buf.now) }
{
    Pump {
        have: advance(p.have, n, buf.len()),
        closed: moving::is_end(p.closed, n),
        ..p
    }
}

// The write took so many octets of what it was handed.
#[tactic(auto, unfolding(crate::specs::Pumping::took_of))]
pub fn took(p: Pump, n: usize) -> Pump
    ensures { result ≡ took_of p n }
{
    Pump {
        from: advance(p.from, n, p.to),
        ..p
    }
}

// What there is to do between two system calls: records are fed and their lines put, what is left of
// the input is moved to its buffer's front, and the last words are put.
#[tactic(auto, unfolding(crate::specs::Pumping::turn_of))]
pub fn turn(p: Pump, buf: &mut [u8], out: &mut [u8]) -> Pump
    ensures { record { pump = result; buf = buf.new; out = out.new } ≡ turn_of p buf.old out.old }
{
    if p.from < p.to || p.over {
        return p;
    }
    let q = begin(p, &mut *buf, &mut *out);
    if !is_ready(q.begun, q.over) {
        return q;
    }
    feed_on(q, buf, out)
}
