// What the record of a capture notes of the session that is asked about, from that session's record
// before the call. Whoever calls this takes it only where the call was accepted.
ghost use Rattle.std.specs.Prelude.{◌≡◌, cond, length};
ghost use Rattle.rules.specs.Conditions.{key_of, same_key};
ghost use Rattle.rules.specs.Received.{received_as};
ghost use Rattle.fault.specs.Message.{fault_of};
ghost use Rattle.conditions.specs.Taking.{taken_in};
ghost use Rattle.message.specs.Message.{message_of};
ghost use Rattle.session.specs.Queries.{locked_in};
ghost use Rattle.cause.specs.declared.Timed.TheVariants.{Unlock};
ghost use Rattle.cause.specs.Noting.{anew, timed_under, timed_by, crossed_by, placed_by};
ghost use Rattle.cause.specs.Records.{marks_only, bfd_noted, message_noted, own_noted, record_noted};

use crate::{Marks, Noted};
use capture::Record;
use conditions::{Condition, Conditions};
use gach::{CC_CHANNEL, CV_CHANNEL};
use octets::{get_u16, get_u32};
use rules::Key;
use session::Session;

// An opening: all anew.
pub fn anew(number: u64) -> Marks
    ensures { result ≡ anew number }
{
    Marks {
        timed: number,
        crossed: 0,
        first: 0,
        second: 0,
        third: 0,
        fourth: 0,
        size: 0,
        by: 0,
    }
}

// The first where the test holds, else the second.
pub fn marks_if(test: bool, noted: Marks, marks: Marks) -> Marks
    ensures { result ≡ cond test noted marks }
{
    if test { noted } else { marks }
}

fn marks_only(m: Marks) -> Noted
    ensures { result ≡ marks_only m }
{
    Noted {
        marks: m,
        crossed: false,
    }
}

// A heard message or a real unlock, by the number that is kept for it.
fn timed_by(m: Marks, number: u64, by: u8) -> Marks
    ensures { result ≡ timed_under m number by }
{
    let mut next = m;
    next.timed = number;
    next.by = by;
    next
}

// A crossed message of so many octets.
fn crossed_by(m: Marks, number: u64, size: usize) -> Marks
    ensures { result ≡ crossed_by m number size }
{
    let mut next = m;
    next.crossed = number;
    next.size = size;
    next
}

#[tactic(auto, unfolding(rules::specs::Conditions::same_key))]
fn number_at(c: Condition, key: Key, number: u64, old: u64) -> u64
    ensures { result ≡ cond (same_key c.key key) number old }
{
    if rules::same_key(c.key, key) {
        number
    } else {
        old
    }
}

// A fault message: the place that has its key afterwards, none where R is set.
fn placed_by(m: Marks, after: Conditions, key: Key, number: u64) -> Marks
    ensures { result ≡ placed_by m after key number }
{
    Marks {
        first: number_at(after.first, key, number, m.first),
        second: number_at(after.second, key, number, m.second),
        third: number_at(after.third, key, number, m.third),
        fourth: number_at(after.fourth, key, number, m.fourth),
        ..m
    }
}

#[tactic(auto, unfolding(conditions::specs::Taking::taken_in, fault::specs::Message::fault_of))]
fn fault_noted(m: Marks, number: u64, before: Session, reading: u64, body: &[u8]) -> Noted
    ensures { result ≡ marks_only (placed_by m (taken_in before.conditions (fault_of body.now) reading) (key_of (fault_of body.now)) number) }
{
    let f = fault::fault_fields(body);
    let after = conditions::take_fault(before.conditions, f, reading).places;
    marks_only(placed_by(m, after, rules::key_of(f), number))
}

// A CC or CV that is crossed, or heard.
fn bfd_noted(m: Marks, number: u64, size: usize, crossed: bool, by: u8) -> Noted
    ensures { result ≡ bfd_noted m number size crossed by }
{
    if crossed {
        return Noted {
            marks: crossed_by(m, number, size),
            crossed: true,
        };
    }
    marks_only(timed_by(m, number, by))
}

// A message, by its channel, as the readers have it. Of a CC or CV the one field is read that tells
// whether it is crossed.
#[tactic(auto, unfolding(message::specs::Message::message_of, rules::specs::Received::received_as))]
fn message_noted(before: Session, m: Marks, number: u64, reading: u64, body: &[u8]) -> Noted
    ensures { result ≡ message_noted before m number reading (length body.now) (received_as before.settings (message_of body.now)) }
{
    let channel = get_u16(body, 2);
    let your = get_u32(body, 12);
    if channel == CC_CHANNEL {
        let crossed = rules::is_foreign(before.settings.discriminator, your);
        return bfd_noted(m, number, body.len(), crossed, 2);
    }
    if channel == CV_CHANNEL {
        let id = cv::mep_id_at(cv::mep_part(body), 0);
        let crossed = rules::cv_crosses(before.settings, your, id);
        return bfd_noted(m, number, body.len(), crossed, 3);
    }
    fault_noted(m, number, before, reading, body)
}

fn unlock_noted(before: Session, m: Marks, number: u64) -> Marks
    ensures { result ≡ cond (locked_in before) (timed_by m number Unlock) m }
{
    let timed = timed_by(m, number, 1);
    marks_if(session::is_locked(before), timed, m)
}

// A record of the label, by its kind.
#[tactic(auto, unfolding(crate::specs::Records::own_noted))]
fn own_noted(before: Session, m: Marks, number: u64, r: Record, body: &[u8]) -> Noted
    ensures { result ≡ own_noted before m number r body.now }
{
    if r.kind == 1 {
        return marks_only(anew(number));
    }
    if r.kind == 4 {
        return marks_only(unlock_noted(before, m, number));
    }
    if r.kind == 5 {
        return message_noted(before, m, number, r.time, body);
    }
    marks_only(m)
}

// A record of any label.
#[tactic(auto, unfolding(crate::specs::Records::record_noted))]
pub fn note(before: Session, label: u32, m: Marks, number: u64, r: Record, body: &[u8]) -> Noted
    ensures { result ≡ record_noted before label m number r body.now }
{
    if r.label == label {
        return own_noted(before, m, number, r, body);
    }
    marks_only(m)
}
