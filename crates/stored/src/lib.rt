// What the programs over stored captures share: files by name and ending, a capture taken in pieces,
// text in buffers, its lines, and what they print.
#![tactic(auto)]

mod files;
mod texts;

pub use files::{named, read_full, read_named};
pub use texts::{further, line_count, put_text, whole_lines};

// What cannot be written is left out.
pub fn say(rt: HostRuntime, text: &[u8]) {
    let _ = Print::write_all(&rt, text);
}

pub fn say_number(rt: HostRuntime, number: u64) {
    let _ = rt.print(number);
}

// A text that is not the one expected.
pub fn say_differs(rt: HostRuntime, text: &[u8]) {
    say(rt, b": not as expected\n");
    say(rt, text);
}

// A text that is not the one expected for what is asked in a line.
pub fn say_answer_differs(rt: HostRuntime, line: &[u8], text: &[u8]) {
    say(rt, b": ");
    say(rt, line);
    say_differs(rt, text);
}

// So many of something are as expected.
pub fn say_holds(rt: HostRuntime, count: u64, what: &[u8]) {
    say(rt, b": ");
    say_number(rt, count);
    say(rt, what);
    say(rt, b", as expected\n");
}

// A file that is not there, or does not fit its buffer.
pub fn say_unread(rt: HostRuntime) {
    say(rt, b": cannot be read\n");
}
