// Asks the questions of data/: each line of a file of questions is asked of the capture beside it,
// which comes whole and again seven octets at a time, and the text is held to the answers that stand
// there one behind the other. One line is printed for each capture; where a text differs, its
// question and the text are printed.
//
// The answers were worked out by hand (the .txt beside them), and the second program gives them too.
#![tactic(auto)]

mod asking;

use stored::{named, say};

// A question of a capture that comes in pieces of so many octets. Its text is what the answers begin with,
// and those behind it are left; none where it is not.
fn hold_in_pieces<'a>(
    rt: HostRuntime,
    line: &[u8],
    capture: &[u8],
    size: usize,
    answers: &'a [u8],
) -> Option<&'a [u8]> {
    let mut out = [0u8; 1024];
    let n = asking::text_of(asking::question_of(line), capture, size, &mut out);
    let text = octets::part(&out, 0, n);
    let left = answers.strip_prefix(text);
    if left.is_none() {
        stored::say_answer_differs(rt, line, text);
    }
    left
}

// Both ways the same, a line with its end.
fn hold<'a>(rt: HostRuntime, line: &[u8], capture: &[u8], answers: &'a [u8]) -> Option<&'a [u8]> {
    let asked = line.strip_suffix(b"\n").unwrap_or(line);
    hold_in_pieces(rt, asked, capture, capture.len(), answers)?;
    hold_in_pieces(rt, asked, capture, 7, answers)
}

// Every line of the questions. What is left of the answers; none where one is not as expected.
fn hold_all<'a>(
    rt: HostRuntime,
    questions: &[u8],
    capture: &[u8],
    answers: &'a [u8],
) -> Option<&'a [u8]> {
    let mut left = answers;
    for line in stored::whole_lines(questions).split_inclusive(|&b| b == b'\n') {
        left = hold(rt, line, capture, left)?;
    }
    Some(left)
}

// No answer is left over either.
fn run(rt: HostRuntime, questions: &[u8], capture: &[u8], answers: &[u8]) {
    match hold_all(rt, questions, capture, answers) {
        Some([]) => stored::say_holds(rt, stored::line_count(questions), b" questions"),
        Some(_) => say(rt, b": answers are left\n"),
        None => {}
    }
}

// The capture that argument i names. None: it cannot be read.
fn run_named(rt: HostRuntime, i: usize) -> Option<()> {
    let mut name = [0u8; 4_096];
    let name = arguments::word(rt, i, &mut name);
    say(rt, name);
    let mut capture = [0u8; 65_536];
    let capture = named(rt, name, b".capture", &mut capture)?;
    let mut questions = [0u8; 65_536];
    let questions = named(rt, name, b".questions", &mut questions)?;
    let mut answers = [0u8; 65_536];
    let answers = named(rt, name, b".answers", &mut answers)?;
    run(rt, questions, capture, answers);
    Some(())
}

fn main(rt: HostRuntime) {
    for i in 1..arguments::count(rt) {
        run_named(rt, i);
    }
}
