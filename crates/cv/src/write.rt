// Writing: which fields are refused, and the octets.
ghost use Rattle.std.specs.Prelude.{◌≡◌};
ghost use Rattle.octets.specs.Refusals.{refusal_in};
ghost use Rattle.octets.specs.Writing.{writing};
ghost use Rattle.cv.specs.Cv.{cv_octets, cv_field_refusal, cv_whole};

use crate::form::mep_fits;
use crate::mep_id::{mep_octets, mep_size};
use crate::{CvOctets, MepId};
use bfd::Packet;
use gach::CV_CHANNEL;
use octets::{Refusal, put_octets};

// 10 for a field out of its range, or one that the reader would refuse.
#[tactic(auto, unfolding(crate::specs::Cv::cv_field_refusal))]
pub fn cv_field_refusal(p: Packet, id: MepId) -> Result<(), Refusal>
    ensures { refusal_in result ≡ cv_field_refusal p id }
{
    bfd::field_refusal(p)?;
    if !mep_fits(id.kind, id.size) {
        return Err(Refusal::OutOfRange);
    }
    Ok(())
}

// The octets of a plain CV, and how many they are.
pub fn cv_octets(p: Packet, id: MepId) -> CvOctets
    ensures { result ≡ cv_whole p id }
{
    let mut octets = [0u8; 78];
    put_octets(&mut octets, 0, &bfd::packet_octets(p, CV_CHANNEL));
    put_octets(&mut octets, 28, &mep_octets(id));
    CvOctets {
        octets,
        count: 28 + mep_size(id),
    }
}

// Writes a plain CV into b, or refuses: 10 for its fields, 13 for a buffer that is too short.
#[tactic(auto, unfolding(octets::specs::Writing::writing))]
pub fn write_cv(b: &mut [u8], p: Packet, id: MepId) -> Result<(), Refusal>
    ensures { record { answer = refusal_in result; buffer = b.new } ≡ writing (cv_field_refusal p id) (cv_octets p id) b.old }
{
    let o = cv_octets(p, id);
    octets::write_unless_refused(b, cv_field_refusal(p, id), &o.octets[..o.count])
}
