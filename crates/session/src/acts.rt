// A received message acts on a record by a small result: what it can change, and its answer.
ghost use Rattle.std.specs.Prelude.{◌≡◌, cond, eqb};
ghost use Rattle.octets.specs.Choice.{or_else};
ghost use Rattle.octets.specs.Refusals.{number_of, refusal_in};
ghost use Rattle.coordination.specs.Message.{dhc_channel};
ghost use Rattle.message.specs.Message.{unheard_dhc};
ghost use Rattle.session.specs.Steps.{heard_cc, heard_cv, crossed_at};
ghost use Rattle.session.specs.Reception.{bfd_answer};
ghost use Rattle.session.specs.Live.{is_fault, live_of, put_live, with_live, acted_of, cc_acted, cv_acted, bfd_acted, with_fault, faulted_of, faulted_by, fault_acted};

use crate::queries::{held_at, is_locked, pw_at, state_at};
use crate::steps::fault_state;
use crate::{Peer, Session};
use bfd::Packet;
use conditions::Conditions;
use coordination::DHC_CHANNEL;
use fault::Fault;
use gach::{CC_CHANNEL, CV_CHANNEL, FAULT_CHANNEL};
use octets::{Refusal, get_u16, get_u32};
use rules::{Input, Mode};

// What a BFD message can change of a record: of its group, the PW alone. It stands beside the answer, no Result, since the
// record is stored whatever the answer is (`bfd_at`): a test would stand between two stores.
#[derive(Clone, Copy)]
pub struct Live {
    pub timed: u64,
    pub crossed: u64,
    pub peer: Peer,
    pub state: u8,
    pub crossing: u8,
    pub pw: u8,
}

// What comes of a BFD message, and its answer: a number and no Result, since `bfd_acted` has the record as it was beside a
// refusal, and `Steps` above speaks of both.
#[derive(Clone, Copy)]
pub struct Acted {
    pub live: Live,
    pub answer: u32,
}

// What a fault message can change of a record: of its group, the PW alone. The answer stands beside it as in `Acted`.
#[derive(Clone, Copy)]
pub struct Faulted {
    pub places: Conditions,
    pub answer: u32,
    pub state: u8,
    pub pw: u8,
}

// A fault message, by its header.
#[tactic(auto, unfolding(crate::specs::Live::is_fault))]
pub fn is_fault(m: &[u8]) -> bool
    ensures { result ≡ is_fault m.now }
{
    gach::header_refusal(m).is_ok() && get_u16(m, 2) == FAULT_CHANNEL
}

fn live_of(s: Session) -> Live
    ensures { result ≡ live_of s }
{
    Live {
        timed: s.timed,
        crossed: s.crossed,
        peer: s.peer,
        state: s.state,
        crossing: s.crossing,
        pw: s.group.pw,
    }
}

fn put_live(s: Session, live: Live) -> Session
    ensures { result ≡ put_live s live }
{
    let mut next = s;
    next.timed = live.timed;
    next.crossed = live.crossed;
    next.peer = live.peer;
    next.state = live.state;
    next.crossing = live.crossing;
    next.group.pw = live.pw;
    next
}

// The record with what a BFD message changed.
pub fn with_live(s: Session, a: Acted) -> Session
    ensures { result ≡ with_live s a }
{
    put_live(s, a.live)
}

// What a heard CC leaves. Whether the session is held down is asked of the record as it was, at the message's reading.
#[tactic(auto, unfolding(crate::specs::Steps::heard_cc))]
fn cc_live(s: Session, reading: u64, p: Packet) -> Live
    ensures { result ≡ live_of (heard_cc s reading p) }
{
    let held = held_at(s, reading);
    let input = rules::heard_input(held, p.state);
    let to = rules::move_by(Mode::from(s.settings.mode), state_at(s, reading), input);
    let peer = Peer {
        remote: p.my,
        multiplier: p.multiplier,
        diagnostic: p.diagnostic,
        owed: u8::from(p.poll || s.peer.owed == 1),
    };
    Live {
        timed: reading,
        crossed: s.crossed,
        peer,
        state: rules::stored_number(to),
        crossing: s.crossing,
        pw: pw_at(s, reading),
    }
}

// What a heard CV leaves.
#[tactic(auto, unfolding(crate::specs::Steps::heard_cv))]
fn cv_live(s: Session, reading: u64) -> Live
    ensures { result ≡ live_of (heard_cv s reading) }
{
    let state = rules::stored_number(state_at(s, reading));
    let mut live = live_of(s);
    live.timed = reading;
    live.state = state;
    live.pw = pw_at(s, reading);
    live
}

// What a crossed CC or CV leaves. Inline: called, it needs the record in memory of its own, and every message then copies a
// record twice, 58 instructions of a feed's record.
#[inline(always)]
#[tactic(auto, unfolding(crate::specs::Steps::crossed_at))]
fn crossed_live(s: Session, reading: u64) -> Live
    ensures { result ≡ live_of (crossed_at s reading) }
{
    let to = rules::move_by(
        Mode::from(s.settings.mode),
        state_at(s, reading),
        Input::Crossed,
    );
    let mut live = live_of(s);
    live.crossed = reading;
    live.crossing = 1;
    live.state = rules::stored_number(to);
    live.pw = homing::lowered_pw(s.group.role, pw_at(s, reading));
    live
}

fn refused(s: Session, refusal: Refusal) -> Acted
    ensures { result ≡ acted_of s (number_of refusal) }
{
    Acted {
        live: live_of(s),
        answer: u32::from(refusal),
    }
}

fn accepted(live: Live) -> Acted
    ensures { result ≡ record { live = live; answer = 0 } }
{
    Acted { live, answer: 0 }
}

// What every BFD message that was read is refused for: a session that is locked hears none.
fn bfd_refusal(s: Session) -> Result<(), Refusal>
    ensures { refusal_in result ≡ bfd_answer s }
{
    if is_locked(s) {
        return Err(Refusal::Locked);
    }
    Ok(())
}

// What a BFD message is refused for that its reader refuses or not.
fn refusal_for(s: Session, read: Result<(), Refusal>) -> Result<(), Refusal>
    ensures { refusal_in result ≡ or_else (refusal_in read) (bfd_answer s) }
{
    read.and(bfd_refusal(s))
}

// A message whose header is a CC's.
#[tactic(auto, unfolding(crate::specs::Live::cc_acted))]
fn cc_act(s: Session, m: &[u8], reading: u64) -> Acted
    ensures { result ≡ cc_acted s m.now reading }
{
    if let Err(refusal) = refusal_for(s, bfd::cc_body_refusal(m)) {
        return refused(s, refusal);
    }
    let p = bfd::packet_of(m);
    if rules::is_foreign(s.settings.discriminator, p.your) {
        return accepted(crossed_live(s, reading));
    }
    accepted(cc_live(s, reading, p))
}

// A message whose header is a CV's.
#[tactic(auto, unfolding(crate::specs::Live::cv_acted))]
fn cv_act(s: Session, m: &[u8], reading: u64) -> Acted
    ensures { result ≡ cv_acted s m.now reading }
{
    if let Err(refusal) = refusal_for(s, cv::cv_body_refusal(m)) {
        return refused(s, refusal);
    }
    if rules::cv_crosses(s.settings, get_u32(m, 12), cv::source_of(m)) {
        return accepted(crossed_live(s, reading));
    }
    accepted(cv_live(s, reading))
}

// A DHC message is refused as its reader has it, else 24: no session takes one. 5 for all others.
#[tactic(auto, unfolding(message::specs::Message::unheard_dhc))]
fn other_refusal(m: &[u8], channel: u16) -> Refusal
    ensures { number_of result ≡ cond (eqb channel dhc_channel) (unheard_dhc m.now) 5 }
{
    if channel != DHC_CHANNEL {
        return Refusal::Channel;
    }
    match coordination::dhc_refusal(m) {
        Ok(()) => Refusal::NoGroup,
        Err(refusal) => refusal,
    }
}

// A CC or CV: its header first, then by its channel; any other message is refused.
#[tactic(auto, unfolding(crate::specs::Live::bfd_acted))]
pub fn bfd_act(s: Session, m: &[u8], reading: u64) -> Acted
    ensures { result ≡ bfd_acted s m.now reading }
{
    if let Err(refusal) = gach::header_refusal(m) {
        return refused(s, refusal);
    }
    match get_u16(m, 2) {
        CC_CHANNEL => cc_act(s, m, reading),
        CV_CHANNEL => cv_act(s, m, reading),
        channel => refused(s, other_refusal(m, channel)),
    }
}

fn fault_refused(s: Session, n: u32) -> Faulted
    ensures { result ≡ faulted_of s n }
{
    Faulted {
        places: s.conditions,
        answer: n,
        state: s.state,
        pw: s.group.pw,
    }
}

fn fault_by(s: Session, reading: u64, f: Fault) -> Faulted
    ensures { result ≡ faulted_by s reading 0 f }
{
    let v = conditions::take_fault(s.conditions, f, reading);
    if v.answer != 0 {
        return fault_refused(s, v.answer);
    }
    Faulted {
        places: v.places,
        answer: 0,
        state: fault_state(s, reading, f),
        pw: pw_at(s, reading),
    }
}

// A fault message; any other message is refused.
#[tactic(auto, unfolding(crate::specs::Live::fault_acted))]
pub fn fault_act(s: Session, m: &[u8], reading: u64) -> Faulted
    ensures { result ≡ fault_acted s m.now reading }
{
    match fault::read_fault(m) {
        Ok((f, _)) => fault_by(s, reading, f),
        Err(e) => fault_refused(s, u32::from(e.refusal)),
    }
}

// The record with what a fault message changed.
pub fn with_fault(s: Session, f: Faulted) -> Session
    ensures { result ≡ with_fault s f }
{
    let mut next = s;
    next.conditions = f.places;
    next.group.pw = f.pw;
    next.state = f.state;
    next
}
