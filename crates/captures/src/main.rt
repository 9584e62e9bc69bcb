// Runs the captures of data/: each that an argument names is fed to a table, whole and again seven
// octets at a time, and what comes out is held to the lines that stand beside it. One line is
// printed for each capture; where a text differs, it is printed too.
//
// The lines were made by the second program, and each was worked out by hand (the .txt beside it).
#![tactic(auto)]

mod playing;

use stored::named;

// The capture fed in pieces of so many octets. A text that is not the one expected is printed.
fn holds_in_pieces(rt: HostRuntime, capture: &[u8], size: usize, expected: &[u8]) -> bool {
    let mut out = [0u8; 65_536];
    let n = playing::text_of(capture, size, &mut out);
    let good = &out[..n] == expected;
    if !good {
        stored::say_differs(rt, &out[..n]);
    }
    good
}

fn hold(rt: HostRuntime, capture: &[u8], expected: &[u8]) {
    if holds_in_pieces(rt, capture, capture.len(), expected)
        && holds_in_pieces(rt, capture, 7, expected)
    {
        stored::say_holds(rt, stored::line_count(expected), b" lines");
    }
}

// The capture that argument i names. None: it cannot be read.
fn run_named(rt: HostRuntime, i: usize) -> Option<()> {
    let mut name = [0u8; 4_096];
    let name = arguments::word(rt, i, &mut name);
    stored::say(rt, name);
    let mut capture = [0u8; 65_536];
    let capture = named(rt, name, b".capture", &mut capture)?;
    let mut expected = [0u8; 65_536];
    let expected = named(rt, name, b".lines", &mut expected)?;
    hold(rt, capture, expected);
    Some(())
}

fn main(rt: HostRuntime) {
    for i in 1..arguments::count(rt) {
        run_named(rt, i);
    }
}
