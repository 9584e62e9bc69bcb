// What the provisioning people ask: LSP Ping records from standard input, the line of the sessions file
// that they give to standard output. What a record does not carry comes from the arguments.
#![tactic(auto)]

mod input;
mod line;
mod words;

use words::Words;

// One octet more than a list of entries may have.
fn answer(rt: HostRuntime, w: Words, out: &mut [u8]) -> usize {
    let mut buf = [0u8; 131_073];
    let Some(have) = input::read_all(rt, &mut buf) else {
        return 0;
    };
    if buf.len() <= have {
        return line::put_too_long(out);
    }
    let list = pump::part(&buf, 0, have);
    let a = configuration::read_configuration(list, w.type_in_use());
    line::put_answer(rt, out, w, a)
}

fn main(rt: HostRuntime) {
    let mut out = [0u8; 4_096];
    let n = match words::all_words(rt) {
        Some(w) => answer(rt, w, &mut out),
        None => line::put_usage(&mut out),
    };
    syscall::write_text(rt, b"provision", &out, n, 0);
}
