// The answer to a request: 26 before all, then the order of the call.
ghost use Rattle.std.specs.Prelude.{◌≡◌};
ghost use Rattle.octets.specs.Choice.{need, bar};
ghost use Rattle.octets.specs.Refusals.{refusal_in};
ghost use Rattle.rules.specs.Times.{late};
ghost use Rattle.step.specs.Stepping.{is_place, on_answer, room_answer, sound_answer, answer_of};

use crate::Request;
use octets::Refusal;
use scan::Summary;
use table::Head;

#[tactic(auto, unfolding(rules::specs::Times::late))]
fn late_refusal(clock: u64, reading: u64) -> Result<(), Refusal>
    ensures { refusal_in result ≡ bar (late clock reading) 1 0 }
{
    if rules::is_late(clock, reading) {
        return Err(Refusal::Late);
    }
    Ok(())
}

fn place_refusal(place: usize) -> Result<(), Refusal>
    ensures { refusal_in result ≡ need (is_place place) 2 0 }
{
    if place < 64 {
        return Ok(());
    }
    Err(Refusal::NotOpen)
}

fn on_refusal(clock: u64, place: usize, reading: u64) -> Result<(), Refusal>
    ensures { refusal_in result ≡ on_answer clock place reading }
{
    late_refusal(clock, reading)?;
    place_refusal(place)
}

fn room_refusal(place: usize, size: usize, room: usize) -> Result<(), Refusal>
    ensures { refusal_in result ≡ room_answer place size room }
{
    place_refusal(place)?;
    if room < size {
        return Err(Refusal::NoRoom);
    }
    Ok(())
}

// `size` is how many octets the CV of the record has.
fn sound_refusal(clock: u64, place: usize, size: usize, q: Request) -> Result<(), Refusal>
    ensures { refusal_in result ≡ sound_answer clock place size q }
{
    match q {
        Request::Tick(u) => late_refusal(clock, u),
        Request::Close(_, u) | Request::Lock(_, u) | Request::Unlock(_, u) => {
            on_refusal(clock, place, u)
        }
        Request::ReportOn(_) => place_refusal(place),
        Request::WriteCc(_, n) => room_refusal(place, 28, n),
        Request::WriteCv(_, n) => room_refusal(place, size, n),
    }
}

#[tactic(auto, unfolding(crate::specs::Stepping::answer_of))]
pub(crate) fn refusal_to(s: Summary, head: Head, size: usize, q: Request) -> Result<(), Refusal>
    ensures { refusal_in result ≡ answer_of s head size q }
{
    if !s.sound {
        return Err(Refusal::Unsound);
    }
    sound_refusal(head.clock, s.place, size, q)
}
