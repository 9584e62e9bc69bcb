// A file read from a place on, as far as a lent buffer reaches.
#![tactic(auto)]

ghost use Rattle.std.specs.Prelude.{◌≡◌};
ghost use Rattle.located.specs.Turns.{turn_behind};

use std::fs::File;
use std::io::{Seek, SeekFrom, Write};
use std::os::unix::fs::FileExt;
use syscall::Came;

// The greatest place that a file can have.
const FARTHEST: u64 = 9_223_372_036_854_775_807;

// The place so many octets further; the greatest, where there is none.
fn further(place: u64, n: usize) -> u64 {
    place.saturating_add(n as u64).min(FARTHEST)
}

// What a read is to what was read so far: another one is to be made behind so many octets, they are
// all of the file, or a read failed.
#[derive(Clone, Copy)]
enum Turn {
    More(usize),
    All(usize),
    Failed,
}

// So many octets more, and not past the buffer's end; none is the end of the file. A read that failed is
// made again or is the last.
fn turn_behind(size: usize, came: Came, room: usize) -> Turn
    ensures { result ≡ turn_behind size came room }
{
    match came {
        Came::Octets(n) => Turn::More(pump::advance(size, n, room)),
        Came::End => Turn::All(size),
        Came::Again => Turn::More(size),
        Came::Failed => Turn::Failed,
    }
}

// One read, behind the octets that are there. One that failed is told of, and nothing is read behind it.
fn read_on(
    rt: HostRuntime,
    name: &[u8],
    file: &File,
    place: u64,
    size: usize,
    buf: &mut [u8],
) -> Turn {
    let at = pump::within(size, buf);
    let got = file.read_at(&mut buf[at..], further(place, size));
    turn_behind(
        size,
        syscall::what_came(rt.stderr(), name, got, 0),
        buf.len(),
    )
}

// How many octets were read: read by read, until the buffer is full, the file ends or a read fails; then
// it is none, and standard error is told, with the program's name. The number of reads is bounded by one
// that no run uses up.
pub fn read_at(
    rt: HostRuntime,
    name: &[u8],
    file: &File,
    place: u64,
    buf: &mut [u8],
) -> Option<usize> {
    let mut size: usize = 0;
    for _turn in 0..u64::MAX {
        if buf.len() <= size {
            break;
        }
        match read_on(rt, name, file, place, size, &mut *buf) {
            Turn::More(next) => size = next,
            Turn::All(all) => return Some(all),
            Turn::Failed => return None,
        }
    }
    Some(size)
}

// How many octets a file has; that it is not known is told.
pub fn size_of(rt: HostRuntime, name: &[u8], mut file: &File) -> Option<u64> {
    match file.seek(SeekFrom::End(0)) {
        Ok(octets) => Some(octets),
        Err(error) => {
            syscall::is_again(rt.stderr(), name, false, error, 0);
            None
        }
    }
}

// The number that argument i is, up to the greatest one allowed.
pub fn number_of(rt: HostRuntime, i: usize, most: u64) -> Option<u64> {
    let mut word = [0u8; 64];
    let n = arguments::argument(rt, i, &mut word).unwrap_or(0);
    inquiry::number_in(pump::part(&word, 0, n), most)
}

// A line to standard error.
pub fn complain(rt: HostRuntime, line: &[u8]) {
    let _ = Write::write_all(&mut rt.stderr(), line);
}
