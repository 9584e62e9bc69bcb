// The arguments of a program, and the files that they name.
#![tactic(auto)]

ghost use Rattle.std.specs.Prelude.{◌≤◌, IfSome, length};

use std::env::{Env, FillError};
use std::fs::File;

// Whether there is an argument at a place.
fn is_there(rt: HostRuntime, i: usize) -> bool {
    let mut front = [0u8; 1];
    !matches!(rt.arg(i, &mut front), Err(FillError::NotPresent))
}

// How many arguments there are, the program's name among them.
pub fn count(rt: HostRuntime) -> usize {
    for i in 0..usize::MAX {
        if !is_there(rt, i) {
            return i;
        }
    }
    usize::MAX
}

// How many octets the argument at a place has, which stand from the buffer's front on. None: it is
// not there, or does not fit the buffer.
pub fn argument(rt: HostRuntime, i: usize, word: &mut [u8]) -> Option<usize>
    ensures { IfSome result (λ n. n ≤ length word.new) }
{
    rt.arg(i, word).ok()
}

// The same, and none where there is no such argument or it does not fit.
pub fn argument_or_none(rt: HostRuntime, i: usize, word: &mut [u8]) -> usize
    ensures { result ≤ length word.new }
{
    argument(rt, i, &mut *word).unwrap_or(0)
}

// The octets of the argument at a place, which stand from the lent buffer's front on. One that is not
// there, or does not fit, has none.
pub fn word(rt: HostRuntime, i: usize, buf: &mut [u8]) -> &[u8]
    ensures { length result.now ≤ length buf.old }
{
    let n = argument_or_none(rt, i, &mut *buf);
    &buf[..n]
}

// The file of a name, for reading. A name is UTF-8 text.
pub fn opened(rt: HostRuntime, name: &[u8]) -> Option<File> {
    match str::from_utf8(name) {
        Ok(path) => File::open(&rt, path).ok(),
        Err(_) => None,
    }
}

// The file that the argument at a place names.
pub fn opened_at(rt: HostRuntime, i: usize) -> Option<File> {
    let mut name = [0u8; 4_096];
    let n = argument(rt, i, &mut name)?;
    opened(rt, &name[..n])
}
