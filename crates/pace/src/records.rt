// One record of the pacing: whether it is there, what it is to the label, and what is known behind it.
ghost use Rattle.std.specs.Prelude.{◌≡◌};
ghost use Rattle.pace.specs.Calling.{pacing_by, note_of, forgets_of, plain_note, kept_by};
ghost use Rattle.pace.specs.Laws.{pacing_laws};

use crate::Pacing;
use capture::{Record, is_whole, next_record};
use feed::{Fed, Watch, session_before};
use interval::{Event, Pace, event_of, pace_by};
use session::Session;

// An open, a close or a lock of the label: its last CC is forgotten.
#[tactic(auto, unfolding(crate::specs::Calling::forgets_of))]
fn forgets(label: u32, r: Record) -> bool
    ensures { result ≡ forgets_of label r }
{
    r.label == label && (r.kind == 1 || r.kind == 2 || r.kind == 3)
}

// What is kept of the label behind a record that brings no message: nothing is read of the session
// and of the octets.
#[tactic(auto, unfolding(crate::specs::Calling::plain_note))]
fn noted_plain(x: Pacing, r: Record) -> Pace
    ensures { result ≡ plain_note x r }
{
    if forgets(x.label, r) {
        return pace_by(x.pace, Event::Forgotten);
    }
    x.pace
}

impl Watch for Pacing {
    type Note = Pace;

    ghost carried = { pacing_by };

    ghost noted = { note_of };

    ghost kept_by = { kept_by };

    ghost laws = { pacing_laws };

    fn fed(self) -> Fed {
        self.fed
    }

    fn label(self) -> u32 {
        self.label
    }

    // Every whole record is asked for.
    #[tactic(auto, unfolding(crate::specs::Pacing::more_of))]
    fn more(self, input: &[u8]) -> bool {
        is_whole(next_record(input, self.fed.used))
    }

    fn note(self, before: Session, r: Record, body: &[u8]) -> Pace {
        pace_by(self.pace, event_of(before, self.label, r, body))
    }

    // Only a message is noted by the session before it.
    #[tactic(auto, using(crate::proofs::Plain::plain_is))]
    fn note_before(self, row: &[Session], r: Record, body: &[u8]) -> Pace {
        if r.kind == 5 {
            return self.note(session_before(row, self.fed, self.label, r), r, body);
        }
        noted_plain(self, r)
    }

    // A refused record counts for nothing. The buffer is not written to.
    #[tactic(auto, unfolding(crate::specs::Calling::kept_by))]
    fn keep(self, fed: Fed, answer: u32, note: Pace, _body: &[u8], _kept: &mut [u8]) -> Pacing {
        let accepted = answer == 0;
        Pacing {
            fed,
            pace: if accepted { note } else { self.pace },
            label: self.label,
        }
    }
}
