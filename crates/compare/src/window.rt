// A file in constant memory: the octets of it that are at hand, in a lent buffer.
ghost use Rattle.std.specs.Prelude.{◌≡◌};
ghost use Rattle.compare.specs.Windows.{first, left_in, seen_in, further_by};

use std::fs::File;
use std::io::Read;
use syscall::Came;

// What is behind the octets at hand: there may be more, the file ends there, or a read failed.
#[derive(Clone, Copy)]
pub enum Behind {
    More,
    End,
    Failure,
}

// From one place of the buffer to another they are not passed yet; what is behind them; which octet of
// the file is the first of them, and how many records were passed.
#[derive(Clone, Copy)]
pub struct Window {
    pub from: usize,
    pub to: usize,
    pub behind: Behind,
    pub place: u64,
    pub records: u64,
}

// How many octets are at hand.
pub fn left(w: Window) -> usize
    ensures { result ≡ left_in w }
{
    w.to.saturating_sub(w.from)
}

// Whether a read of the file failed.
pub(crate) fn has_failed(w: Window) -> bool {
    matches!(w.behind, Behind::Failure)
}

// A file before its first octet.
pub fn first() -> Window
    ensures { result ≡ first }
{
    Window {
        from: 0,
        to: 0,
        behind: Behind::More,
        place: 0,
        records: 0,
    }
}

// The octets at hand.
pub fn seen(w: Window, buf: &[u8]) -> &[u8]
    ensures { result.now ≡ seen_in w buf.now }
{
    octets::part(buf, w.from, left(w))
}

// So many octets further, and so many records.
pub fn passed(w: Window, n: usize, records: usize) -> Window
    ensures { result ≡ further_by w n records }
{
    Window {
        from: w.from.saturating_add(n),
        place: w.place.saturating_add(n as u64),
        records: w.records.saturating_add(records as u64),
        ..w
    }
}

// One read, behind the octets at hand. One that failed is told of, and nothing is read behind it.
fn read_on(rt: HostRuntime, mut file: &File, w: Window, buf: &mut [u8]) -> Window {
    let at = pump::within(w.to, buf);
    let got = file.read(&mut buf[at..]);
    match syscall::what_came(rt.stderr(), b"compare", got, w.records) {
        Came::Octets(n) => Window {
            to: pump::advance(w.to, n, buf.len()),
            ..w
        },
        Came::End => Window {
            behind: Behind::End,
            ..w
        },
        Came::Again => w,
        Came::Failed => Window {
            behind: Behind::Failure,
            ..w
        },
    }
}

// A whole record, 2,064 octets at most, might not be at hand, and there may be more.
fn wants(w: Window) -> bool {
    matches!(w.behind, Behind::More) && left(w) < 2_064
}

// More is read, until a whole record is at hand or the file ends. The number of reads is bounded by one
// that no run uses up.
pub fn filled(rt: HostRuntime, file: &File, w: Window, buf: &mut [u8]) -> Window {
    if !wants(w) {
        return w;
    }
    let to = pump::shift(&mut *buf, w.from, w.to);
    let mut x = Window { from: 0, to, ..w };
    for _turn in 0..u64::MAX {
        if !wants(x) {
            break;
        }
        x = read_on(rt, file, x, &mut *buf);
    }
    x
}
