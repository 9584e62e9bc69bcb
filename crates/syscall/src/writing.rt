// A text to standard output, write by write.
ghost use Rattle.std.specs.Prelude.{length};
ghost use Rattle.std.specs.Io.{WritesAtMost};

use crate::is_again;
use std::io;
use std::io::{Error, ErrorKind, Stderr, Write};

// What one write answered: the place behind what was written, and none where no other write is to be
// made. One that takes nothing gets no further: it has failed, with no error number.
fn after_write(
    to_err: Stderr,
    name: &[u8],
    from: usize,
    to: usize,
    took: io::Result<usize>,
    part: &[u8],
    number: u64,
) -> Option<usize>
    requires { WritesAtMost took part.now }
{
    let error = match took {
        Ok(0) => Error::from(ErrorKind::WriteZero),
        Ok(n) => return Some(pump::advance(from, n, to)),
        Err(error) => error,
    };
    is_again(to_err, name, true, error, number).then_some(from)
}

// One write, of what is still to be written.
fn write_on(
    rt: HostRuntime,
    name: &[u8],
    from: usize,
    to: usize,
    out: &[u8],
    number: u64,
) -> Option<usize> {
    let part = pump::part(out, from, to);
    let took = rt.stdout().write(part);
    after_write(rt.stderr(), name, from, to, took, part, number)
}

// Write by write, until the octets up to a place are written or a write fails; then standard error is
// told, with the program's name and the number of the last record that was taken. Whether all is
// written. The number of writes is bounded by one that no text uses up.
pub fn write_text(rt: HostRuntime, name: &[u8], out: &[u8], to: usize, number: u64) -> bool {
    let mut from: usize = 0;
    for _turn in 0..u64::MAX {
        if to <= from {
            return true;
        }
        match write_on(rt, name, from, to, out, number) {
            Some(next) => from = next,
            None => return false,
        }
    }
    to <= from
}
