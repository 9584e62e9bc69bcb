// One turn: the header, records, and the last words.
ghost use Rattle.std.specs.Prelude.{◌≡◌, cond, [], length};
ghost use Rattle.std.proofs.lemmas.List.Edits.{sets};
ghost use Rattle.text.specs.Text.{cut};
ghost use Rattle.pump.specs.Pumping.{last_words, at_front, cannot_mend, is_over, is_waiting, unfed_to, fed_on, begun_on, header_read, is_ready};

use crate::Pump;
use crate::moving::{shift, within};
use capture::{Next, header_fits, is_whole, next_record};
use feed::Fed;
use octets::put_octets;
use owner::{Feeding, feed};

// The table, before the first octet of the input and of the output.
#[tactic(auto, unfolding(crate::specs::Pumping::at_front))]
fn at_front(t: Feeding) -> Feeding
    ensures { result ≡ at_front t }
{
    Feeding {
        fed: Fed {
            used: 0,
            written: 0,
            ..t.fed
        },
        ..t
    }
}

fn cannot_mend(n: Next) -> bool
    ensures { result ≡ cannot_mend n }
{
    matches!(n, Next::Broken)
}

// Nothing that may come changes how the text ends.
fn is_over(closed: bool, n: Next) -> bool
    ensures { result ≡ is_over closed n }
{
    closed || cannot_mend(n)
}

// The header is not there yet, and may come.
fn is_waiting(closed: bool, octets: usize) -> bool
    ensures { result ≡ is_waiting closed octets }
{
    !closed && octets < 8
}

// The last words of the text.
fn finish(p: Pump, out: &mut [u8], words: &[u8]) -> Pump
    ensures { (result ≡ last_words p (length words.now)) × (out.new ≡ sets out.old 0 words.now) }
{
    put_octets(out, 0, words);
    Pump {
        from: 0,
        to: words.len(),
        over: true,
        ..p
    }
}

// Where something is left, the capture is cut.
fn end(p: Pump, out: &mut [u8], left: bool) -> Pump
    ensures { (result ≡ last_words p (length (cond left cut []))) × (out.new ≡ sets out.old 0 (cond left cut [])) }
{
    if left {
        finish(p, out, b"cut\n")
    } else {
        finish(p, out, b"")
    }
}

// Nothing is fed: how the text ends, once that is known.
fn unfed(p: Pump, buf: &[u8], out: &mut [u8]) -> Pump
    ensures { record { pump = result; buf = buf.now; out = out.new } ≡ unfed_to p buf.now out.old }
{
    let n = within(p.have, buf);
    if is_over(p.closed, next_record(&buf[..n], 0)) {
        return end(p, out, n > 0);
    }
    p
}

// As many records as are there and as many lines as fit.
#[tactic(auto, unfolding(crate::specs::Pumping::fed_on))]
fn feed_some(p: Pump, buf: &mut [u8], out: &mut [u8]) -> Pump
    ensures { record { pump = result; buf = buf.new; out = out.new } ≡ fed_on p buf.old out.old }
{
    let n = within(p.have, buf);
    let table = feed(at_front(p.table), &buf[..n], &mut *out);
    let used = table.fed.used;
    if used > 0 {
        let have = shift(buf, used, n);
        return Pump {
            table,
            have,
            from: 0,
            to: table.fed.written,
            begun: true,
            closed: p.closed,
            over: false,
        };
    }
    unfed(p, &*buf, out)
}

// Behind each write comes a turn, and mostly no whole record is left then: so the table is neither
// copied nor asked for 26.
#[tactic(auto, unfolding(crate::specs::Pumping::fed_on))]
pub fn feed_on(p: Pump, buf: &mut [u8], out: &mut [u8]) -> Pump
    ensures { record { pump = result; buf = buf.new; out = out.new } ≡ fed_on p buf.old out.old }
{
    let n = within(p.have, buf);
    if is_whole(next_record(&buf[..n], 0)) {
        return feed_some(p, buf, out);
    }
    unfed(p, &*buf, out)
}

// The header is read.
fn behind_header(p: Pump, have: usize) -> Pump
    ensures { result ≡ header_read p have }
{
    Pump {
        have,
        begun: true,
        ..p
    }
}

// The header, where it is not read yet.
#[tactic(auto, unfolding(crate::specs::Pumping::begun_on))]
pub fn begin(p: Pump, buf: &mut [u8], out: &mut [u8]) -> Pump
    ensures { record { pump = result; buf = buf.new; out = out.new } ≡ begun_on p buf.old out.old }
{
    if p.begun {
        return p;
    }
    let n = within(p.have, buf);
    if is_waiting(p.closed, n) {
        return p;
    }
    if !header_fits(&buf[..n]) {
        return finish(p, out, b"bad header\n");
    }
    let have = shift(buf, 8, n);
    behind_header(p, have)
}

// The header is read, and the text is not over.
pub fn is_ready(begun: bool, over: bool) -> bool
    ensures { result ≡ is_ready begun over }
{
    begun && !over
}
