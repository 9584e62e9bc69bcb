// An open: its refusals one after the other, and the new session in the lowest free place.
ghost use Rattle.std.specs.Prelude.{◌≡◌};
ghost use Rattle.octets.specs.Refusals.{refusal_in};
ghost use Rattle.session.specs.Steps.{new_session};
ghost use Rattle.step.specs.Stepping.{opening_answer, opened_head, opening_of, opening_target};

use crate::effect::{NOWHERE, nothing_told};
use crate::{Opening, Outcome, Stepped};
use octets::Refusal;
use scan::{Summary, Target};
use session::Session;
use table::Head;

// An opening looks for a rival.
pub fn opening_target(g: Opening) -> Target
    ensures { result ≡ opening_target g }
{
    Target {
        label: g.settings.label,
        discriminator: g.settings.discriminator,
    }
}

#[tactic(auto, unfolding(crate::specs::Stepping::opening_answer))]
fn opening_refusal(s: Summary, head: Head, g: Opening) -> Result<(), Refusal>
    ensures { refusal_in result ≡ opening_answer s head g }
{
    if !s.sound {
        return Err(Refusal::Unsound);
    }
    if rules::is_late(head.clock, g.reading) {
        return Err(Refusal::Late);
    }
    if !rules::settings_fit(g.settings) {
        return Err(Refusal::OutOfRange);
    }
    if s.rival {
        return Err(Refusal::Taken);
    }
    if s.full {
        return Err(Refusal::Full);
    }
    Ok(())
}

fn opened_head(head: Head, reading: u64) -> Head
    ensures { result ≡ opened_head head reading }
{
    Head {
        clock: reading,
        occupied: table::with_place(head.occupied, table::lowest_free(head.occupied)),
    }
}

// The record that lies in the free place is not looked at; it is handed in because calls of one
// shape share one proof.
#[tactic(auto, unfolding(crate::specs::Stepping::opening_of))]
pub fn opening_step(s: Summary, head: Head, g: Opening, _r: Session) -> Stepped
    ensures { result ≡ opening_of s head g }
{
    let told = nothing_told();
    match opening_refusal(s, head, g) {
        Ok(()) => Stepped {
            outcome: Outcome {
                head: opened_head(head, g.reading),
                told,
                answer: 0,
            },
            place: table::lowest_free(head.occupied) as usize,
        },
        Err(refusal) => Stepped {
            outcome: Outcome {
                head,
                told,
                answer: u32::from(refusal),
            },
            place: NOWHERE,
        },
    }
}

// The record of an accepted open.
#[tactic(auto, unfolding(session::specs::Steps::new_session))]
pub fn opened_by(g: Opening, _r: Session) -> Session
    ensures { result ≡ new_session g.settings g.reading }
{
    session::opened_at(g.settings, g.reading)
}
