// The text of a whole capture, put into a lent buffer.
#![tactic(auto)]

mod lines;

ghost use Rattle.std.specs.Prelude.{◌≡◌, length};
ghost use Rattle.octets.specs.Writing.{writing};
ghost use Rattle.text.specs.Text.{bad_header};
ghost use Rattle.text.specs.Runs.{ran_in, finished, run_of};

use capture::header_fits;
pub use lines::empty_table;
use lines::put_lines;
use octets::{Refusal, write_octets};

// What fits so far, and how many octets it has: a mark and a number, no Option, since the law of the loop (`Going`) speaks
// of both.
#[derive(Clone, Copy)]
struct Count {
    fits: bool,
    octets: usize,
}

#[tactic(auto, unfolding(octets::specs::Writing::writing))]
fn bad_header(out: &mut [u8]) -> Result<usize, Refusal>
    ensures { record { ran = ran_in result; out = out.new } ≡ finished (length bad_header) (writing 0 bad_header out.old) }
{
    write_octets(out, b"bad header\n")?;
    Ok(11)
}

// The text of the capture at the buffer's front, and how many octets it has, or 13 and the buffer as it was. It is counted
// first and then put.
#[tactic(auto, unfolding(crate::specs::Runs::run_of))]
pub fn run(capture: &[u8], out: &mut [u8]) -> Result<usize, Refusal>
    ensures { record { ran = ran_in result; out = out.new } ≡ run_of capture.now out.old }
{
    if !header_fits(capture) {
        return bad_header(out);
    }
    let room = out.len();
    let mut none = [0u8; 0];
    let count = put_lines(capture, &mut none, room);
    if !count.fits {
        return Err(Refusal::NoRoom);
    }
    let put = put_lines(capture, out, room);
    Ok(put.octets)
}
