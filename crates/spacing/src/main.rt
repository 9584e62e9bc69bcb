// How late, exactly: the label from the argument, a capture from standard input, the line of its
// spacing to standard output. Any length of input, in whatever pieces it comes, in constant memory.
// Here the system calls are made; all that is done between them is `gauge`'s.
#![tactic(auto)]

ghost use Rattle.std.specs.Prelude.{◌≡◌, false, ◌≤◌, length};
ghost use Rattle.std.specs.Io.{ReadsAtMost};
ghost use Rattle.capture.specs.Typing.{typed};
ghost use Rattle.gauge.specs.Gauging.{text_of};
ghost use Rattle.spacing.specs.Reads.{looking, AfterRead, OneRead, Reached};
ghost use Rattle.spacing.specs.Labels.{is_label};

use gauge::Gauge;
use inquiry::Question;
use std::io;
use std::io::Read;

// What is to be done behind a read: another one, the answer, or nothing where it failed.
#[derive(Clone, Copy)]
enum Next {
    Read,
    Answer,
    Nothing,
}

// What is held after a read, and what is to be done.
#[derive(Clone, Copy)]
struct Looked {
    gauge: Gauge,
    next: Next,
}

// ---- the label
// All arguments behind the program's name, read as `why` reads its own. One that does not fit its buffer
// is no word.
fn words(rt: HostRuntime) -> Question {
    let mut q = inquiry::no_question();
    let mut buf = [0u8; 64];
    for i in 1..arguments::count(rt) {
        q = inquiry::take_word(q, arguments::word(rt, i, &mut buf));
    }
    q
}

// A label, and nothing behind it.
fn is_label(q: Question) -> bool
    ensures { result ≡ is_label q }
{
    q.good && q.labelled && q.kind == 0
}

// ---- the capture
fn looks(gauge: Gauge, next: Next) -> Looked
    ensures { result ≡ record { gauge = gauge; next = next } }
{
    Looked { gauge, next }
}

fn records_of(g: Gauge) -> u64 {
    g.asked.pacing.fed.number
}

// What one read answered. None is the end of the input.
fn after_read(rt: HostRuntime, g: Gauge, got: io::Result<usize>, buf: &mut [u8]) -> Looked
    requires { ReadsAtMost got buf.old }
    ensures { AfterRead (record { gauge = g; buf = buf.old }) got result buf.new }
{
    match got {
        Ok(0) => looks(g, Next::Answer),
        Ok(n) => {
            let h = gauge::got(g, n, buf);
            looks(h, if h.over { Next::Answer } else { Next::Read })
        }
        Err(error) => {
            let again = syscall::is_again(rt.stderr(), b"spacing", false, error, records_of(g));
            looks(g, if again { Next::Read } else { Next::Nothing })
        }
    }
}

// One read, behind the octets that are there.
fn read_on(rt: HostRuntime, g: Gauge, buf: &mut [u8]) -> Looked
    requires { g.over ≡ false }
    ensures { OneRead (record { gauge = g; buf = buf.old }) result buf.new }
{
    let at = pump::within(g.have, buf);
    let got = rt.stdin().read(&mut buf[at..]);
    after_read(rt, g, got, buf)
}

// Read by read, until the numbers are known or a read fails. The number of reads is bounded by one
// that no run uses up.
fn run(rt: HostRuntime, label: u32, buf: &mut [u8]) -> Looked
    requires { 2064 ≤ length buf.old }
    ensures { Reached label (looking result buf.new) }
{
    let mut x = looks(gauge::start(label), Next::Read);
    for _turn in 0..u64::MAX {
        match x.next {
            Next::Read => x = read_on(rt, x.gauge, &mut *buf),
            Next::Answer | Next::Nothing => break,
        }
    }
    x
}

// ---- the line
// The line, once the numbers are known.
fn put_line(out: &mut [u8], g: Gauge) -> usize
    ensures { record { buffer = out.new; at = result } ≡ typed (record { buffer = out.old; at = 0 }) (text_of g) }
{
    gauge::put_text(out, g)
}

fn answer(rt: HostRuntime, label: u32) {
    let mut buf = [0u8; 262_144];
    let mut out = [0u8; 128];
    let x = run(rt, label, &mut buf);
    if let Next::Answer = x.next {
        let g = x.gauge;
        let n = put_line(&mut out, g);
        syscall::write_text(rt, b"spacing", &out, n, records_of(g));
    }
}

fn main(rt: HostRuntime) {
    let q = words(rt);
    if is_label(q) {
        answer(rt, inquiry::label_of(q));
    } else {
        let mut out = [0u8; 128];
        let n = gauge::put_usage(&mut out, 0);
        syscall::write_text(rt, b"spacing", &out, n, 0);
    }
}
