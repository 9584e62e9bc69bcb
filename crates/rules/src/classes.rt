// Whether a CC or CV is crossed to the session of its label.
ghost use Rattle.std.specs.Prelude.{◌≡◌, ◌||◌, not};
ghost use Rattle.cv.specs.MepId.{same_mep_id};
ghost use Rattle.rules.specs.Received.{foreign};

use crate::Settings;
use cv::MepId;

// A Your Discriminator that is neither 0 nor the session's own.
pub fn is_foreign(own: u32, your: u32) -> bool
    ensures { result ≡ foreign own your }
{
    your != 0 && your != own
}

// Whether a CV is crossed: by its Your Discriminator, or by its MEP-ID.
#[tactic(auto, unfolding(cv::specs::MepId::same_mep_id))]
pub fn cv_crosses(s: Settings, your: u32, id: MepId) -> bool
    ensures { result ≡ (foreign s.discriminator your || not (same_mep_id id s.expected)) }
{
    is_foreign(s.discriminator, your) || !cv::same_mep_id(id, s.expected)
}
