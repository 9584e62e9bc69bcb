// A log asked by its index file: what a label reported at a reading. The index is read whole, and of the
// log its length, its header and the records behind the one entry that is used. Here the system calls are
// made; all that is done between them is `index_file`'s.
#![tactic(auto)]

use index_file::{Sought, Used};
use located::{complain, read_at};
use std::fs::File;

// The files, and what is asked.
#[derive(Drop)]
struct Asked {
    log: File,
    index: File,
    label: u32,
    reading: u64,
}

// What the log is: whether it starts with the header, and how many octets it has.
#[derive(Clone, Copy)]
struct Front {
    marked: bool,
    size: u64,
}

// Nothing is read of a log whose length is not known; it is none there, and where a read failed.
fn look_at_log(rt: HostRuntime, file: &File) -> Option<Front> {
    let size = located::size_of(rt, b"ask", file)?;
    let mut front = [0u8; 8];
    let n = read_at(rt, b"ask", file, 0, &mut front)?;
    let marked = call_log::header_fits(octets::part(&front, 0, n));
    Some(Front { marked, size })
}

// The entry that is used, from the index file; none where a read failed.
fn look(rt: HostRuntime, a: &Asked) -> Option<Sought> {
    let f = look_at_log(rt, &a.log)?;
    let mut buf = [0u8; 65_536];
    let n = read_at(rt, b"ask", &a.index, 0, &mut buf)?;
    let index = octets::part(&buf, 0, n);
    Some(index_file::sought_in(index, f.marked, f.size, a.label, a.reading))
}

fn tell(rt: HostRuntime, a: call_log::Answer) {
    let mut line = [0u8; 64];
    let n = index_file::put_answer(&mut line, 0, a);
    syscall::write_text(rt, b"ask", &line, n, 0);
}

// The records behind the entry, and the answer.
fn answer(rt: HostRuntime, a: &Asked, used: Used) {
    let mut window = [0u8; 528_896];
    let got = read_at(rt, b"ask", &a.log, used.entry.place, &mut window);
    if let Some(n) = got {
        let behind = octets::part(&window, 0, n);
        tell(
            rt,
            index_file::asked_from(Ok(used), behind, a.label, a.reading),
        );
    }
}

// Beside a refusal no record is read.
fn run(rt: HostRuntime, a: &Asked) {
    match look(rt, a) {
        Some(Ok(used)) => answer(rt, a, used),
        Some(Err(refusal)) => tell(rt, Err(refusal)),
        None => {}
    }
}

fn open_both(rt: HostRuntime, label: u32, reading: u64) {
    let Some(log) = arguments::opened_at(rt, 1) else {
        complain(rt, b"LOG cannot be read\n");
        return;
    };
    let Some(index) = arguments::opened_at(rt, 2) else {
        complain(rt, b"INDEX cannot be read\n");
        return;
    };
    let asked = Asked {
        log,
        index,
        label,
        reading,
    };
    run(rt, &asked);
}

fn main(rt: HostRuntime) {
    let label = located::number_of(rt, 3, 4_294_967_295);
    let reading = located::number_of(rt, 4, 18_446_744_073_709_551_615);
    match (label, reading) {
        (Some(label), Some(reading)) if arguments::count(rt) == 5 => {
            open_both(rt, (label % 4_294_967_296) as u32, reading)
        }
        _ => complain(rt, b"usage: ask LOG INDEX LABEL READING\n"),
    }
}
