// Asks the logs of data/: each line of a file is `LABEL READING => ANSWER`. The clocks and places of the
// label's index are filled in from the log beside the file, and the reading is asked for. One line is
// printed for each log; where an answer differs, what was asked and what came are printed.
//
// It asks by the parts of `indexing`, which lend no row of records. The answers were worked out by hand,
// and the second program gives them too.
#![tactic(auto)]

mod asking;

use stored::named;

// A line with its end.
fn holds(rt: HostRuntime, line: &[u8], log: &[u8]) -> bool {
    let (label, rest) = asking::first_number(line);
    let (reading, answer) = asking::first_number(rest);
    let mut out = [0u8; 64];
    let n = asking::text_of(log, asking::label_of(label), reading, &mut out);
    let text = octets::part(&out, 0, n);
    let good = text == answer;
    if !good {
        stored::say_answer_differs(rt, line, text);
    }
    good
}

// Every line, up to one where the answer differs.
fn holds_all(rt: HostRuntime, lines: &[u8], log: &[u8]) -> bool {
    stored::whole_lines(lines)
        .split_inclusive(|&b| b == b'\n')
        .all(|line| holds(rt, line, log))
}

fn run(rt: HostRuntime, lines: &[u8], log: &[u8]) {
    if holds_all(rt, lines, log) {
        stored::say_holds(rt, stored::line_count(lines), b" questions");
    }
}

// The log that argument i names. None: it cannot be read.
fn run_named(rt: HostRuntime, i: usize) -> Option<()> {
    let mut name = [0u8; 4_096];
    let name = arguments::word(rt, i, &mut name);
    stored::say(rt, name);
    let mut log = [0u8; 65_536];
    let log = named(rt, name, b".log", &mut log)?;
    let mut lines = [0u8; 65_536];
    let lines = named(rt, name, b".asks", &mut lines)?;
    run(rt, lines, log);
    Some(())
}

fn main(rt: HostRuntime) {
    for i in 1..arguments::count(rt) {
        run_named(rt, i);
    }
}
