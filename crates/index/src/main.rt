// The index of a log for one label: the log from the arguments, the index file to standard output. A
// log of any length, in constant memory: it is read once, a block of 256 records at a time, and the
// file is written when all of it was read. Here the system calls are made; all that is done between
// them is `index_file`'s.
#![tactic(auto)]

use index_file::{Indexing, Stage};
use located::{complain, read_at};
use std::fs::File;

// The header of the log, and where building begins; none where a read failed.
fn begin(rt: HostRuntime, file: &File, label: u32) -> Option<Indexing> {
    let mut front = [0u8; 8];
    let n = read_at(rt, b"index", file, 0, &mut front)?;
    Some(index_file::start(octets::part(&front, 0, n), label))
}

// One entry, and the records behind it.
fn go_on(
    rt: HostRuntime,
    file: &File,
    x: Indexing,
    window: &mut [u8],
    out: &mut [u8],
) -> Option<Indexing> {
    let n = read_at(rt, b"index", file, x.place, &mut *window)?;
    Some(index_file::block(out, x, octets::part(&*window, 0, n)))
}

// Entry by entry, while there is to be another; there are at most 256.
fn build(
    rt: HostRuntime,
    file: &File,
    label: u32,
    window: &mut [u8],
    out: &mut [u8],
) -> Option<Indexing> {
    let mut x = begin(rt, file, label)?;
    for _entry in 0..256 {
        if !matches!(x.stage, Stage::More) {
            break;
        }
        x = go_on(rt, file, x, &mut *window, &mut *out)?;
    }
    Some(x)
}

// The file, or the refusal to standard error.
fn tell(rt: HostRuntime, x: Indexing, out: &mut [u8]) {
    let n = index_file::finish(&mut *out, x);
    match x.stage {
        Stage::Refused(_) => complain(rt, b"refused 19\n"),
        Stage::More | Stage::Over => {
            syscall::write_text(rt, b"index", &*out, n, 0);
        }
    }
}

fn run(rt: HostRuntime, file: &File, label: u32) {
    let mut window = [0u8; 528_896];
    let mut out = [0u8; 65_536];
    let built = build(rt, file, label, &mut window, &mut out);
    if let Some(x) = built {
        tell(rt, x, &mut out);
    }
}

fn open_log(rt: HostRuntime, label: u32) {
    match arguments::opened_at(rt, 1) {
        Some(file) => run(rt, &file, label),
        None => complain(rt, b"LOG cannot be read\n"),
    }
}

fn main(rt: HostRuntime) {
    match located::number_of(rt, 2, 4_294_967_295) {
        Some(label) if arguments::count(rt) == 3 => open_log(rt, (label % 4_294_967_296) as u32),
        _ => complain(rt, b"usage: index LOG LABEL\n"),
    }
}
