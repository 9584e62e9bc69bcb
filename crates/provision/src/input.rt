// Standard input into one buffer, read by read.
use std::io::Read;
use syscall::Came;

// One read, behind the octets that are there.
fn read_on(rt: HostRuntime, have: usize, buf: &mut [u8]) -> Came {
    let at = pump::within(have, buf);
    let got = rt.stdin().read(&mut buf[at..]);
    syscall::what_came(rt.stderr(), b"provision", got, 0)
}

// How many octets there are, read by read until the input or the buffer ends; none where a read failed.
// The number of reads is bounded by one that no run uses up.
pub(crate) fn read_all(rt: HostRuntime, buf: &mut [u8]) -> Option<usize> {
    let mut have: usize = 0;
    for _turn in 0..u64::MAX {
        match read_on(rt, have, &mut *buf) {
            Came::Octets(n) => have = pump::advance(have, n, buf.len()),
            Came::End => return Some(have),
            Came::Again => {}
            Came::Failed => return None,
        }
    }
    None
}
