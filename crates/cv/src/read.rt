// Reading: the refusals in the paper's order, the fields, and the caller's own stretch.
ghost use Rattle.std.specs.Prelude.{◌≡◌, ◌+◌, get_or};
ghost use Rattle.octets.specs.Refusals.{refusal_in, answer_in, placed_in};
ghost use Rattle.cv.specs.MepId.{read_mep};
ghost use Rattle.cv.specs.Cv.{mep_at, cv_body_refusal, cv_refusal, source_of, verification_of, cv_reading, mep_part, part_at};

use crate::form::mep_refusal;
use crate::mep_id::mep_id_in;
use crate::place::cv_place;
use crate::{MepId, Verification};
use gach::CV_CHANNEL;
use octets::{Misread, Refusal, get_u8, get_u16};

// Where the MEP-ID starts: right after Length octets.
pub(crate) fn mep_at(m: &[u8]) -> u16
    ensures { result ≡ mep_at m.now }
{
    4 + get_u8(m, 7) as u16
}

// What a message whose header is a CV's is refused for.
#[tactic(auto, unfolding(crate::specs::Cv::cv_body_refusal))]
pub fn cv_body_refusal(m: &[u8]) -> Result<(), Refusal>
    ensures { refusal_in result ≡ cv_body_refusal m.now }
{
    bfd::body_refusal(m)?;
    mep_refusal(m, mep_at(m))
}

// What a CV is refused for.
#[tactic(auto, unfolding(crate::specs::Cv::cv_refusal))]
pub fn cv_refusal(m: &[u8]) -> Result<(), Refusal>
    ensures { refusal_in result ≡ cv_refusal m.now }
{
    bfd::control_refusal(m, CV_CHANNEL)?;
    mep_refusal(m, mep_at(m))
}

// The MEP-ID of a message, whether or not it is refused.
pub fn source_of(m: &[u8]) -> MepId
    ensures { result ≡ source_of m.now }
{
    mep_id_in(m, mep_at(m))
}

fn verification(m: &[u8]) -> Verification
    ensures { result ≡ verification_of m.now }
{
    Verification {
        packet: bfd::packet_of(m),
        mep: source_of(m),
    }
}

// Reads a CV: its packet and MEP-ID and the octets used, or the first refusal and where the message went wrong.
#[tactic(auto, unfolding(crate::specs::Cv::read_cv))]
pub fn read_cv(m: &[u8]) -> Result<(Verification, usize), Misread>
    ensures { placed_in result ≡ cv_reading m.now }
{
    let place = cv_place(m);
    match cv_refusal(m) {
        Ok(()) => Ok((verification(m), place)),
        Err(refusal) => Err(Misread { refusal, place }),
    }
}

// The MEP-ID of an accepted message as a part of it, type to end; of a refused one the empty part
// at its start. `which` says what octets it has, `whose` that it lies in the caller's own message,
// and where.
#[tactic(auto, unfolding(crate::specs::Cv::mep_part, crate::specs::Cv::part_at))]
pub fn mep_part(m: &[u8]) -> &[u8]
    ensures which { result.now ≡ mep_part m.now }
    ensures whose { (result.ref_ptr.0 ≡ m.entry.ref_ptr.0) × (result.ref_ptr.1 ≡ part_at m.now + m.entry.ref_ptr.1) }
{
    let at = mep_at(m) as usize;
    let length = get_u16(m, at + 2) as usize;
    match cv_refusal(m) {
        Ok(()) => &m[at..at + 4 + length],
        Err(_) => &m[..0],
    }
}

// Reads a MEP-ID alone, from its octets, type to end: 3 and 7 as in a CV.
#[tactic(auto, unfolding(crate::specs::MepId::read_mep))]
pub fn read_mep_id(s: &[u8]) -> Result<MepId, Refusal>
    ensures { answer_in result ≡ read_mep s.now }
{
    mep_refusal(s, 0)?;
    Ok(mep_id_in(s, 0))
}
