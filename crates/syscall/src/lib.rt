// What the programs do about a system call that failed, what a read came to, and a text written write by
// write.
#![tactic(auto)]

ghost use Rattle.std.specs.Prelude.{◌≡◌};
ghost use Rattle.syscall.specs.Reads.{IsWhatCame, failed_came};

mod writing;

use std::io;
use std::io::{Error, ErrorKind, Stderr, Write};
pub use writing::write_text;

// What a read came to: so many octets, the end, another read where it was only interrupted, or a failure.
#[derive(Clone, Copy)]
pub enum Came {
    Octets(usize),
    End,
    Again,
    Failed,
}

// Its number; 0 for an error that has none.
fn error_number(error: Error) -> u64 {
    match error.raw_os_error() {
        Some(code) => u64::try_from(code).unwrap_or(0),
        None => 0,
    }
}

// A call that was only interrupted is made again. Of any other that failed standard error is told:
// the program, the call, its error number and the number of the last record that was taken.
pub fn is_again(mut to: Stderr, name: &[u8], writing: bool, error: Error, number: u64) -> bool {
    if error.kind() == ErrorKind::Interrupted {
        return true;
    }
    let mut line = [0u8; 128];
    let n = pump::put_failure(&mut line, name, writing, error_number(error), number);
    let _ = Write::write_all(&mut to, pump::part(&line, 0, n));
    false
}

// What a read that failed came to: one that was only interrupted is made again.
fn failed_came(again: bool) -> Came
    ensures { result ≡ failed_came again }
{
    if again { Came::Again } else { Came::Failed }
}

// What a read came to by what it answered; of one that failed standard error is told.
pub fn what_came(to: Stderr, name: &[u8], got: io::Result<usize>, number: u64) -> Came
    ensures { IsWhatCame got result }
{
    match got {
        Ok(0) => Came::End,
        Ok(n) => Came::Octets(n),
        Err(error) => failed_came(is_again(to, name, false, error, number)),
    }
}
