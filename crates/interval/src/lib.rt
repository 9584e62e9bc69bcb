// The spacing of heard CCs: what a record of a capture is to the label that is asked about, by value,
// and what is kept of the label behind it: its last heard CC and the account of its spacing errors.
#![tactic(auto)]

ghost use Rattle.std.specs.Prelude.{◌≡◌, cond};
ghost use Rattle.interval.specs.Records.{cc_event, message_event, own_event, record_event};
ghost use Rattle.interval.specs.Pacing.{hearing, paced_by, at_rest};

use account::{Account, add_pair, nothing};
use capture::Record;
use gach::CC_CHANNEL;
use octets::{get_u16, get_u32};
use session::Session;

// What an accepted call is to the label: a CC heard at a reading under a period; the end of an
// opening or of a stretch unlocked, whose last CC is forgotten; or nothing.
#[derive(Clone, Copy, Debug, PartialEq, Eq)]
pub enum Event {
    Nothing,
    Forgotten,
    Heard(u64, u32),
}

// The account so far, and the reading of the last heard CC, where there is one: a mark and a number, no Option, since the
// definitions of `Pacing` speak of both.
#[derive(Clone, Copy)]
pub struct Pace {
    pub account: Account,
    pub reading: u64,
    pub heard: bool,
}

// A CC that is crossed, or heard.
fn cc_event(crossed: bool, reading: u64, period: u32) -> Event
    ensures { result ≡ cc_event crossed reading period }
{
    if crossed {
        return Event::Nothing;
    }
    Event::Heard(reading, period)
}

// A message, by its channel, as the readers have it. Of a CC the one field is read that tells
// whether it is crossed.
fn message_event(before: Session, reading: u64, body: &[u8]) -> Event
    ensures { result ≡ message_event before reading body.now }
{
    let channel = get_u16(body, 2);
    let your = get_u32(body, 12);
    if channel == CC_CHANNEL {
        let crossed = rules::is_foreign(before.settings.discriminator, your);
        return cc_event(crossed, reading, before.settings.period);
    }
    Event::Nothing
}

// A record of the label, by its kind.
#[tactic(auto, unfolding(crate::specs::Records::own_event))]
fn own_event(before: Session, r: Record, body: &[u8]) -> Event
    ensures { result ≡ own_event before r body.now }
{
    if r.kind == 1 {
        return Event::Forgotten;
    }
    if r.kind == 2 {
        return Event::Forgotten;
    }
    if r.kind == 3 {
        return Event::Forgotten;
    }
    if r.kind == 5 {
        return message_event(before, r.time, body);
    }
    Event::Nothing
}

// A record of any label.
#[tactic(auto, unfolding(crate::specs::Records::record_event))]
pub fn event_of(before: Session, label: u32, r: Record, body: &[u8]) -> Event
    ensures { result ≡ record_event before label r body.now }
{
    if r.label == label {
        return own_event(before, r, body);
    }
    Event::Nothing
}

// No CC yet, no pair.
pub fn at_rest() -> Pace
    ensures { result ≡ at_rest }
{
    Pace {
        account: nothing(),
        reading: 0,
        heard: false,
    }
}

fn hear(p: Pace, reading: u64, period: u32) -> Pace
    ensures { result ≡ hearing p reading period }
{
    let mut account = p.account;
    if p.heard {
        account = add_pair(account, reading, p.reading, period);
    }
    Pace {
        account,
        reading,
        heard: true,
    }
}

// Behind an accepted call.
pub fn pace_by(p: Pace, e: Event) -> Pace
    ensures { result ≡ paced_by p e }
{
    match e {
        Event::Nothing => p,
        Event::Forgotten => Pace {
            reading: 0,
            heard: false,
            ..p
        },
        Event::Heard(reading, period) => hear(p, reading, period),
    }
}
