// What each accepted call does to a session's record.
ghost use Rattle.std.specs.Prelude.{◌≡◌, cond};
ghost use Rattle.rules.specs.declared.State.TheVariants.{Down};
ghost use Rattle.rules.specs.States.{stored};
ghost use Rattle.rules.specs.Modes.{mode_in};
ghost use Rattle.rules.specs.Conditions.{acts_on, fault_state};
ghost use Rattle.session.specs.Queries.{state_at};
ghost use Rattle.session.specs.Steps.{new_session, locked_at, unlocked_at, reply_settled};

use crate::queries::{group_at, is_locked, state_at};
use crate::{Peer, Session};
use fault::Fault;
use rules::{Mode, Settings, State};

// A new session.
#[tactic(auto, unfolding(crate::specs::Steps::new_session))]
pub fn opened_at(settings: Settings, reading: u64) -> Session
    ensures { result ≡ new_session settings reading }
{
    Session {
        timed: reading,
        crossed: 0,
        conditions: conditions::no_conditions(),
        settings,
        peer: Peer {
            remote: 0,
            multiplier: 3,
            diagnostic: 0,
            owed: 0,
        },
        state: 1,
        crossing: 0,
        group: homing::no_group(),
    }
}

// Lock. A loss is looked for first: a locked session has none.
#[tactic(auto, unfolding(crate::specs::Steps::locked_at))]
pub fn locked_at(s: Session, reading: u64) -> Session
    ensures { result ≡ locked_at s reading }
{
    let mut next = s;
    next.group = group_at(s, reading);
    next.state = 0;
    next.peer.diagnostic = 0;
    next.peer.owed = 0;
    next
}

fn unlocked_state(locked: bool, from: State) -> State
    ensures { result ≡ cond locked Down from }
{
    if locked { State::Down } else { from }
}

fn unlocked_multiplier(locked: bool, multiplier: u8) -> u8
    ensures { result ≡ cond locked 3 multiplier }
{
    if locked { 3 } else { multiplier }
}

fn unlocked_date(locked: bool, reading: u64, timed: u64) -> u64
    ensures { result ≡ cond locked reading timed }
{
    if locked { reading } else { timed }
}

// Unlock: real where the session is locked, else it is settled.
#[tactic(auto, unfolding(crate::specs::Steps::unlocked_at))]
pub fn unlocked_at(s: Session, reading: u64) -> Session
    ensures { result ≡ unlocked_at s reading }
{
    let locked = is_locked(s);
    let state = unlocked_state(locked, state_at(s, reading));
    let multiplier = unlocked_multiplier(locked, s.peer.multiplier);
    let timed = unlocked_date(locked, reading, s.timed);
    let mut next = s;
    next.group = group_at(s, reading);
    next.state = rules::stored_number(state);
    next.peer.multiplier = multiplier;
    next.timed = timed;
    next
}

fn follows_fault(settings: Settings, f: Fault) -> bool
    ensures { result ≡ acts_on settings f }
{
    !f.removed && rules::is_followed(settings.followlink, settings.followlock, f.kind, f.linkdown)
}

fn state_by_fault(mode: Mode, acts: bool, from: State, kind: u8) -> State
    ensures { result ≡ fault_state mode acts from kind }
{
    if acts {
        rules::move_by(mode, from, rules::fault_input(kind))
    } else {
        from
    }
}

// The state that an accepted fault message leaves, as it is stored.
#[tactic(auto, unfolding(crate::specs::Queries::state_at))]
pub(crate) fn fault_state(s: Session, reading: u64, f: Fault) -> u8
    ensures { result ≡ stored (fault_state (mode_in s.settings) (acts_on s.settings f) (state_at s reading) f.kind) }
{
    let acts = follows_fault(s.settings, f);
    let to = state_by_fault(
        Mode::from(s.settings.mode),
        acts,
        state_at(s, reading),
        f.kind,
    );
    rules::stored_number(to)
}

// A written CC settles the reply owed.
#[tactic(auto, unfolding(crate::specs::Steps::reply_settled))]
pub fn cc_written(s: Session) -> Session
    ensures { result ≡ reply_settled s }
{
    let mut next = s;
    next.peer.owed = 0;
    next
}
