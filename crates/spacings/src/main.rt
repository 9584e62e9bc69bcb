// Asks for the spacings of data/: each line of a file is `LABEL => LINE`, or `RECORDS LABEL => LINE` of
// the first records alone, and is asked of the capture beside it, which comes whole and again seven
// octets at a time. A line of text is printed for each file; where a spacing differs, what was asked
// and what came are printed.
//
// The lines were worked out by hand (the .txt beside them), and the second program gives them too.
#![tactic(auto)]

mod asking;

use stored::say;

// The spacing of a label in a capture that comes in pieces of so many octets.
fn holds_in_pieces(
    rt: HostRuntime,
    line: &[u8],
    label: u32,
    capture: &[u8],
    size: usize,
    wanted: &[u8],
) -> bool {
    let mut out = [0u8; 128];
    let n = asking::line_of(label, capture, size, &mut out);
    let text = octets::part(&out, 0, n);
    let good = text == wanted;
    if !good {
        stored::say_answer_differs(rt, line, text);
    }
    good
}

// Both ways, a line with its end.
fn holds(rt: HostRuntime, line: &[u8], capture: &[u8]) -> bool {
    let asked = asking::asked_in(line);
    let front = match asked.records {
        Some(records) => asking::front_of(capture, records),
        None => capture,
    };
    holds_in_pieces(rt, line, asked.label, front, front.len(), asked.wanted)
        && holds_in_pieces(rt, line, asked.label, front, 7, asked.wanted)
}

// Every line, up to one where the spacing differs.
fn holds_all(rt: HostRuntime, lines: &[u8], capture: &[u8]) -> bool {
    stored::whole_lines(lines)
        .split_inclusive(|&b| b == b'\n')
        .all(|line| holds(rt, line, capture))
}

// The lines of a file that stands beside a capture; none where it is not there.
fn run_lines(
    rt: HostRuntime,
    name: &[u8],
    ending: &[u8],
    capture: &[u8],
    what: &[u8],
) -> Option<()> {
    let mut lines = [0u8; 65_536];
    let n = stored::read_named(rt, name, ending, &mut lines).ok()?;
    let lines = &lines[..n];
    say(rt, name);
    if holds_all(rt, lines, capture) {
        stored::say_holds(rt, stored::line_count(lines), what);
    }
    Some(())
}

fn say_unread(rt: HostRuntime, name: &[u8]) {
    say(rt, name);
    stored::say_unread(rt);
}

// The capture that argument i names. One has lines of its first records too.
fn run_named(rt: HostRuntime, i: usize) {
    let mut name = [0u8; 4_096];
    let name = arguments::word(rt, i, &mut name);
    let mut capture = [0u8; 65_536];
    let Ok(size) = stored::read_named(rt, name, b".capture", &mut capture) else {
        say_unread(rt, name);
        return;
    };
    let capture = &capture[..size];
    if run_lines(rt, name, b".spacings", capture, b" labels").is_none() {
        say_unread(rt, name);
    }
    run_lines(rt, name, b".fronts", capture, b" labels of first records");
}

fn main(rt: HostRuntime) {
    for i in 1..arguments::count(rt) {
        run_named(rt, i);
    }
}
