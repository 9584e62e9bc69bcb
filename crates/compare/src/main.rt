// What the desk asks of two captures of one fibre: the two files from the arguments, what differs to
// standard output, an entry a line, and where the rest of the first begins. Files of any length, in
// constant memory: each is read once to see whether it is bad, and then both once more, pair by pair.
#![tactic(auto)]

mod window;

use comparison::Marks;
use std::fs::File;
use std::io::Error;
use window::{Window, filled, first, has_failed, left, passed, seen};

// The files that are compared.
#[derive(Drop)]
struct Files {
    first: File,
    second: File,
}

// The place where the rest begins, the number of the pair to come, and whether all agreed so far.
#[derive(Clone, Copy)]
struct Told {
    rest: u64,
    number: u64,
    agree: bool,
}

// Both files before a pair, and what was told of those before it.
#[derive(Clone, Copy)]
struct Pair {
    first: Window,
    second: Window,
    told: Told,
}

// What is behind a pair: another one, the end of both files, or nothing where a read or a write failed.
#[derive(Clone, Copy)]
enum Outcome {
    Pair(Pair),
    End(Told),
    Failure,
}

// ---- the lines
fn say_pair(rt: HostRuntime, number: u64, m: Marks) -> bool {
    let mut lines = [0u8; 512];
    let n = comparison::put_pair(&mut lines, 0, number, m);
    syscall::write_text(rt, b"compare", &lines, n, number)
}

fn say_refused(rt: HostRuntime, answer: u64) {
    let mut line = [0u8; 64];
    let n = comparison::put_refused(&mut line, 0, answer);
    syscall::write_text(rt, b"compare", &line, n, 0);
}

fn say_rest(rt: HostRuntime, place: u64) {
    let mut line = [0u8; 64];
    let n = comparison::put_rest(&mut line, 0, place);
    syscall::write_text(rt, b"compare", &line, n, 0);
}

// ---- each file by itself
// One record further, or none.
fn pass_record(rt: HostRuntime, file: &File, w: Window, buf: &mut [u8]) -> Window {
    let f = filled(rt, file, w, &mut *buf);
    let step = comparison::step_of(seen(f, &*buf));
    passed(f, step, 1)
}

// Behind the last whole record. The number of records is bounded by one that no run uses up.
fn pass_records(rt: HostRuntime, file: &File, from: Window, buf: &mut [u8]) -> Window {
    let mut w = from;
    for _record in 0..u64::MAX {
        let next = pass_record(rt, file, w, &mut *buf);
        if next.place <= w.place {
            return next;
        }
        w = next;
    }
    w
}

// Whether a file is a capture from its header to its end; none where a read failed.
fn look_through(rt: HostRuntime, file: &File, buf: &mut [u8]) -> Option<bool> {
    let f = filled(rt, file, first(), &mut *buf);
    if !capture::header_fits(seen(f, &*buf)) {
        return (!has_failed(f)).then_some(false);
    }
    let end = pass_records(rt, file, passed(f, 8, 0), buf);
    (!has_failed(end)).then_some(left(end) == 0)
}

// Whether a file is good. That it is bad is said here; that a read failed was said behind the read.
fn is_good(rt: HostRuntime, file: &File, answer: u64, buf: &mut [u8]) -> bool {
    match look_through(rt, file, buf) {
        Some(true) => true,
        Some(false) => {
            say_refused(rt, answer);
            false
        }
        None => false,
    }
}

// Whether the file that argument i names is good. That it cannot be opened is said here.
fn is_compared(rt: HostRuntime, i: usize, unread: &[u8], answer: u64, buf: &mut [u8]) -> bool {
    match arguments::opened_at(rt, i) {
        Some(file) => is_good(rt, &file, answer, buf),
        None => {
            stored::say(rt, unread);
            false
        }
    }
}

// ---- both, pair by pair
// What a pair is to what is told. The rest begins with the first record that differs, and an extra
// one of the second leaves none: there the first is at its end.
fn told_by(t: Told, m: Marks, place: u64) -> Told {
    let number = t.number.saturating_add(1);
    if !t.agree {
        return Told { number, ..t };
    }
    Told {
        rest: place,
        number,
        agree: comparison::is_unmarked(m) && !m.first,
    }
}

// The second is not read where a read of the first failed.
fn fill_both(rt: HostRuntime, files: &Files, p: Pair, first: &mut [u8], second: &mut [u8]) -> Pair {
    let a = filled(rt, &files.first, p.first, first);
    if has_failed(a) {
        return Pair { first: a, ..p };
    }
    let b = filled(rt, &files.second, p.second, second);
    Pair {
        first: a,
        second: b,
        ..p
    }
}

// One pair, of what is at hand.
fn tell_next(rt: HostRuntime, p: Pair, first: &[u8], second: &[u8]) -> Outcome {
    let s = seen(p.first, first);
    let t = seen(p.second, second);
    let m = comparison::marks_of(s, t);
    if !say_pair(rt, p.told.number, m) {
        return Outcome::Failure;
    }
    let told = told_by(p.told, m, p.first.place);
    let n = comparison::step_of(s);
    let k = comparison::step_of(t);
    if n == 0 && k == 0 {
        return Outcome::End(told);
    }
    Outcome::Pair(Pair {
        first: passed(p.first, n, 1),
        second: passed(p.second, k, 1),
        told,
    })
}

// One pair more, unless a read failed: behind that nothing is told, nor behind a write that failed.
fn tell_pair(
    rt: HostRuntime,
    files: &Files,
    p: Pair,
    first: &mut [u8],
    second: &mut [u8],
) -> Outcome {
    let q = fill_both(rt, files, p, &mut *first, &mut *second);
    if has_failed(q.first) || has_failed(q.second) {
        return Outcome::Failure;
    }
    tell_next(rt, q, &*first, &*second)
}

// Pair by pair; none where one failed. The number of pairs is bounded by one that no run uses up.
fn tell(
    rt: HostRuntime,
    files: &Files,
    start: Pair,
    first: &mut [u8],
    second: &mut [u8],
) -> Option<Told> {
    let mut p = start;
    for _pair in 0..u64::MAX {
        match tell_pair(rt, files, p, &mut *first, &mut *second) {
            Outcome::Pair(next) => p = next,
            Outcome::End(told) => return Some(told),
            Outcome::Failure => return None,
        }
    }
    Some(p.told)
}

// A file behind its header.
fn behind_header(rt: HostRuntime, file: &File, buf: &mut [u8]) -> Window {
    let w = filled(rt, file, first(), buf);
    passed(w, 8, 0)
}

// All pairs, and then the place where the rest begins.
fn compare_files(rt: HostRuntime, files: &Files, first: &mut [u8], second: &mut [u8]) {
    let a = behind_header(rt, &files.first, &mut *first);
    if has_failed(a) {
        return;
    }
    let b = behind_header(rt, &files.second, &mut *second);
    let told = Told {
        rest: 8,
        number: 1,
        agree: true,
    };
    let start = Pair {
        first: a,
        second: b,
        told,
    };
    if let Some(told) = tell(rt, files, start, first, second) {
        say_rest(rt, told.rest);
    }
}

// A file that is not there any more, told of as one that nothing can be read of.
fn opened_again(rt: HostRuntime, i: usize) -> Option<File> {
    let file = arguments::opened_at(rt, i);
    if file.is_none() {
        syscall::is_again(
            rt.stderr(),
            b"compare",
            false,
            Error::from_raw_os_error(9),
            0,
        );
    }
    file
}

// Both files once more, from their first octets on.
fn compare_again(rt: HostRuntime, first: &mut [u8], second: &mut [u8]) {
    let Some(one) = opened_again(rt, 1) else {
        return;
    };
    let Some(other) = opened_again(rt, 2) else {
        return;
    };
    let files = Files {
        first: one,
        second: other,
    };
    compare_files(rt, &files, first, second);
}

fn run(rt: HostRuntime) {
    let mut first = [0u8; 65_536];
    let mut second = [0u8; 65_536];
    if !is_compared(rt, 1, b"FIRST cannot be read\n", 22, &mut first) {
        return;
    }
    if !is_compared(rt, 2, b"SECOND cannot be read\n", 23, &mut second) {
        return;
    }
    compare_again(rt, &mut first, &mut second);
}

fn main(rt: HostRuntime) {
    if arguments::count(rt) == 3 {
        run(rt);
    } else {
        stored::say(rt, b"usage: compare FIRST SECOND\n");
    }
}
