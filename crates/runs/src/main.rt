// A capture of at most 65,536 octets from standard input, as one slice: its text, and what a buffer
// is answered that is one octet too short, and one that just fits.
#![tactic(auto)]

use stored::{say, say_number};

// Answer and count for a buffer of so many octets.
fn tell(rt: HostRuntime, capture: &[u8], out: &mut [u8], room: usize) {
    let n = room.min(out.len());
    let r = text::run(capture, &mut out[..n]);
    say_number(rt, octets::answer_number(r.map(|_| ())) as u64);
    say(rt, b" ");
    say_number(rt, r.unwrap_or(0) as u64);
    say(rt, b"\n");
}

fn main(rt: HostRuntime) {
    let mut buf = [0u8; 65_536];
    let mut out = [0u8; 65_536];
    let mut input = rt.stdin();
    let n = stored::read_full(&mut input, &mut buf);
    let r = text::run(&buf[..n], &mut out);
    let w = r.unwrap_or(0).min(out.len());
    say(rt, &out[..w]);
    tell(rt, &buf[..n], &mut out, w.saturating_sub(1));
    tell(rt, &buf[..n], &mut out, w);
}
