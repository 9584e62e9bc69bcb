// One record of the tracing: whether it is there, what it notes, and what is known behind it.
ghost use Rattle.trace.specs.Calling.{traced, note_of, kept_by};
ghost use Rattle.trace.specs.Laws.{tracing_laws};

use crate::Tracing;
use capture::{Record, is_whole, next_record};
use cause::{Noted, marks_if, note};
use feed::{Fed, Watch, number_after};
use octets::put_octets;
use session::Session;

impl Watch for Tracing {
    type Note = Noted;

    ghost carried = { traced };

    ghost noted = { note_of };

    ghost kept_by = { kept_by };

    ghost laws = { tracing_laws };

    fn fed(self) -> Fed {
        self.fed
    }

    fn label(self) -> u32 {
        self.label
    }

    #[tactic(auto, unfolding(crate::specs::Tracing::more_of))]
    fn more(self, input: &[u8]) -> bool {
        self.fed.number < self.upto && is_whole(next_record(input, self.fed.used))
    }

    fn note(self, before: Session, r: Record, body: &[u8]) -> Noted {
        note(
            before,
            self.label,
            self.marks,
            number_after(self.fed.number),
            r,
            body,
        )
    }

    // A refused record notes nothing, and nothing of it is kept.
    #[tactic(auto, unfolding(crate::specs::Calling::kept_by))]
    fn keep(self, fed: Fed, answer: u32, note: Noted, body: &[u8], kept: &mut [u8]) -> Tracing {
        let accepted = answer == 0;
        if accepted && note.crossed {
            put_octets(kept, 0, body);
        }
        Tracing {
            fed,
            marks: marks_if(accepted, note.marks, self.marks),
            ..self
        }
    }
}
