// The record of one label, kept by itself: what an accepted record of a log makes of it, without a
// table. A record whose label is 0 is none.
#![tactic(auto)]

ghost use Rattle.std.specs.Prelude.{◌≡◌};
ghost use Rattle.session.specs.Live.{received_record};
ghost use Rattle.own.specs.Records.{effect_by, own_by, record_after};

use capture::{Record, settings_in};
use session::Session;
use table::absent;

// What a received message makes of the record; one that it refuses leaves it.
fn received_by(s: Session, m: &[u8], reading: u64) -> Session
    ensures { result ≡ received_record s m.now reading }
{
    if session::is_fault(m) {
        session::with_fault(s, session::fault_act(s, m, reading))
    } else {
        session::with_live(s, session::bfd_act(s, m, reading))
    }
}

// An act on an open session, by its kind.
#[tactic(auto, unfolding(crate::specs::Records::effect_by))]
fn effect_by(s: Session, r: Record, body: &[u8]) -> Session
    ensures { result ≡ effect_by s r body.now }
{
    match r.kind {
        3 => session::locked_at(s, r.time),
        4 => session::unlocked_at(s, r.time),
        5 => received_by(s, body, r.time),
        7 => session::cc_written(s),
        _ => s,
    }
}

// A record of the label, no tick.
#[tactic(auto, unfolding(crate::specs::Records::own_by))]
fn own_by(s: Session, r: Record, body: &[u8]) -> Session
    ensures { result ≡ own_by s r body.now }
{
    match r.kind {
        1 => session::opened_at(settings_in(r.label, body), r.time),
        2 => absent(),
        _ if s.settings.label == 0 => s,
        _ => effect_by(s, r, body),
    }
}

// What an accepted record of a log makes of the record of a label.
#[tactic(auto, unfolding(crate::specs::Records::record_after))]
pub fn record_after(r: Record, body: &[u8], label: u32, s: Session) -> Session
    ensures { result ≡ record_after r body.now label s }
{
    if r.kind != 0 && r.label == label {
        own_by(s, r, body)
    } else {
        s
    }
}
