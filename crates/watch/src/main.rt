// What the night desk runs: a capture from standard input, a line for each record to standard
// output. Any length of input, in whatever pieces it comes, in constant memory: one buffer for input,
// one for output, and a core by value that says what is wanted next. Here the two system calls are
// made, and nothing else.
#![tactic(auto)]

ghost use Rattle.std.specs.Prelude.{ℕ, ◌≡◌, List, length};
ghost use Rattle.std.specs.Io.{ReadsAtMost, WritesAtMost};
ghost use Rattle.pump.specs.declared.Wanted.TheVariants.{Read, Write};
ghost use Rattle.pump.specs.Pumping.{wants_of};
ghost use Rattle.watch.specs.Calls.{Failed, AfterRead, AfterWrite, CallMade, Reached};

use pump::{Pump, Wanted};
use std::io;
use std::io::{Error, ErrorKind, Read, Write};

// What is to be done behind a system call: the core's turn where it moved something or found the end, the
// same call again, or nothing more.
#[derive(Clone, Copy)]
enum Next {
    Turn,
    Again,
    Stop,
}

// The core after a system call, and what is to be done.
#[derive(Clone, Copy)]
struct Called {
    core: Pump,
    next: Next,
}

fn behind(core: Pump, next: Next) -> Called
    ensures { result ≡ record { core = core; next = next } }
{
    Called { core, next }
}

// A call that was only interrupted is made again, and behind any other that failed nothing more is
// done.
fn failed(rt: HostRuntime, core: Pump, writing: bool, error: Error) -> Called
    ensures { Failed core result }
{
    let number = core.table.fed.number;
    let again = syscall::is_again(rt.stderr(), b"watch", writing, error, number);
    behind(core, if again { Next::Again } else { Next::Stop })
}

// What one read answered. None is the end of the input.
fn after_read(rt: HostRuntime, core: Pump, got: io::Result<usize>, buf: &[u8]) -> Called
    requires { ReadsAtMost got buf.now }
    ensures { AfterRead core (length buf.now) got result }
{
    match got {
        Ok(n) => behind(pump::got(core, n, buf), Next::Turn),
        Err(error) => failed(rt, core, false, error),
    }
}

// What one write answered. One that takes nothing gets no further: it has failed, with no error
// number.
fn after_write(rt: HostRuntime, core: Pump, took: io::Result<usize>, part: &[u8]) -> Called
    requires { WritesAtMost took part.now }
    ensures { AfterWrite core took result }
{
    match took {
        Ok(0) => failed(rt, core, true, Error::from(ErrorKind::WriteZero)),
        Ok(n) => behind(pump::took(core, n), Next::Turn),
        Err(error) => failed(rt, core, true, error),
    }
}

// One read, behind the octets that are there.
fn read_on(rt: HostRuntime, core: Pump, buf: &mut [u8]) -> Called
    requires { wants_of core ≡ Read }
    ensures { (out : List ℕ) → CallMade (record { pump = core; buf = buf.old; out = out }) result buf.new }
{
    let at = pump::within(core.have, buf);
    let got = rt.stdin().read(&mut buf[at..]);
    after_read(rt, core, got, buf)
}

// One write, of what is still to be written.
fn write_on(rt: HostRuntime, core: Pump, out: &[u8]) -> Called
    requires { wants_of core ≡ Write }
    ensures { (buf : List ℕ) → CallMade (record { pump = core; buf = buf; out = out.now }) result buf }
{
    let part = pump::pending(core, out);
    let took = rt.stdout().write(part);
    after_write(rt, core, took, part)
}

// The system call that is wanted.
fn call(rt: HostRuntime, core: Pump, buf: &mut [u8], out: &[u8]) -> Called
    ensures { CallMade (record { pump = core; buf = buf.old; out = out.now }) result buf.new }
{
    let wanted = pump::wants(core);
    match wanted {
        Wanted::Read => read_on(rt, core, buf),
        Wanted::Write => write_on(rt, core, out),
        Wanted::Nothing => behind(core, Next::Stop),
    }
}

// Call by call, with the core's turn behind each that moved something, until nothing more is wanted
// or a call fails. The number of calls is bounded by one that no run uses up.
fn run(rt: HostRuntime, buf: &mut [u8], out: &mut [u8]) -> Pump
    ensures { Reached buf.old out.old (record { pump = result; buf = buf.new; out = out.new }) }
{
    let mut core = pump::start();
    for _turn in 0..u64::MAX {
        let made = call(rt, core, &mut *buf, &*out);
        core = made.core;
        match made.next {
            Next::Turn => core = pump::turn(core, &mut *buf, &mut *out),
            Next::Again => {}
            Next::Stop => break,
        }
    }
    core
}

fn main(rt: HostRuntime) {
    let mut buf = [0u8; 262_144];
    let mut out = [0u8; 262_144];
    run(rt, &mut buf, &mut out);
}
