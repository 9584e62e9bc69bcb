// What the desk asks: the question from the arguments, a capture from standard input, the answer to
// standard output. Any length of input, in whatever pieces it comes, in constant memory. Here the
// system calls are made; all that is done between them is `inquiry`'s.
#![tactic(auto)]

ghost use Rattle.std.specs.Prelude.{◌≡◌, false, ◌≤◌, length};
ghost use Rattle.std.specs.Io.{ReadsAtMost};
ghost use Rattle.capture.specs.Typing.{typed};
ghost use Rattle.inquiry.specs.Searching.{ended_of, text_of};
ghost use Rattle.why.specs.Reads.{looking, AfterRead, OneRead, Reached};

use cause::Thing;
use inquiry::{Question, Search};
use std::io;
use std::io::Read;

// What is to be done behind a read: another one, the answer, or nothing where it failed.
#[derive(Clone, Copy)]
enum Next {
    Read,
    Answer,
    Nothing,
}

// The search after a read, and what is to be done.
#[derive(Clone, Copy)]
struct Looked {
    search: Search,
    next: Next,
}

// ---- the question
// All arguments behind the program's name. One that does not fit its buffer is no word of a question.
fn words(rt: HostRuntime) -> Question {
    let mut q = inquiry::no_question();
    let mut buf = [0u8; 64];
    for i in 1..arguments::count(rt) {
        q = inquiry::take_word(q, arguments::word(rt, i, &mut buf));
    }
    q
}

// ---- the capture
fn looks(search: Search, next: Next) -> Looked
    ensures { result ≡ record { search = search; next = next } }
{
    Looked { search, next }
}

fn records_of(s: Search) -> u64 {
    s.asked.tracing.fed.number
}

// What one read answered. None is the end of the input.
fn after_read(
    rt: HostRuntime,
    s: Search,
    got: io::Result<usize>,
    buf: &mut [u8],
    kept: &mut [u8],
) -> Looked
    requires { ReadsAtMost got buf.old }
    ensures { AfterRead (record { search = s; buf = buf.old; kept = kept.old }) got result buf.new kept.new }
{
    match got {
        Ok(0) => looks(s, Next::Answer),
        Ok(n) => {
            let t = inquiry::got(s, n, buf, kept);
            looks(t, if t.over { Next::Answer } else { Next::Read })
        }
        Err(error) => {
            let again = syscall::is_again(rt.stderr(), b"why", false, error, records_of(s));
            looks(s, if again { Next::Read } else { Next::Nothing })
        }
    }
}

// One read, behind the octets that are there.
fn read_on(rt: HostRuntime, s: Search, buf: &mut [u8], kept: &mut [u8]) -> Looked
    requires { s.over ≡ false }
    ensures { OneRead (record { search = s; buf = buf.old; kept = kept.old }) result buf.new kept.new }
{
    let at = pump::within(s.have, buf);
    let got = rt.stdin().read(&mut buf[at..]);
    after_read(rt, s, got, buf, kept)
}

// Read by read, until the answer is known or a read fails. The number of reads is bounded by one
// that no run uses up.
fn run(rt: HostRuntime, label: u32, upto: u64, buf: &mut [u8], kept: &mut [u8]) -> Looked
    requires { 2064 ≤ length buf.old }
    ensures { Reached label upto kept.old (looking result buf.new kept.new) }
{
    let mut x = looks(inquiry::start(label, upto), Next::Read);
    for _turn in 0..u64::MAX {
        match x.next {
            Next::Read => x = read_on(rt, x.search, &mut *buf, &mut *kept),
            Next::Answer | Next::Nothing => break,
        }
    }
    x
}

// ---- the answer
// The text, once the answer is known.
fn put_answer(out: &mut [u8], s: Search, buf: &[u8], kept: &[u8], thing: Thing) -> usize
    ensures { record { buffer = out.new; at = result } ≡ typed (record { buffer = out.old; at = 0 }) (text_of (ended_of s) buf.now kept.now thing) }
{
    inquiry::put_text(out, inquiry::ended(s), buf, kept, thing)
}

fn answer(rt: HostRuntime, q: Question) {
    let mut buf = [0u8; 262_144];
    let mut kept = [0u8; 2_048];
    let mut out = [0u8; 1_024];
    let x = run(
        rt,
        inquiry::label_of(q),
        inquiry::upto_of(q),
        &mut buf,
        &mut kept,
    );
    if let Next::Answer = x.next {
        let s = x.search;
        let n = put_answer(&mut out, s, &buf, &kept, inquiry::thing_of(q));
        syscall::write_text(rt, b"why", &out, n, records_of(s));
    }
}

fn main(rt: HostRuntime) {
    let q = words(rt);
    if inquiry::is_asked(q) {
        answer(rt, q);
    } else {
        let mut out = [0u8; 128];
        let n = inquiry::put_usage(&mut out, 0);
        syscall::write_text(rt, b"why", &out, n, 0);
    }
}
