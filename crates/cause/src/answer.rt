// The answer from the marks, the session's record and the clock.
ghost use Rattle.std.specs.Prelude.{◌≡◌, suc, ◌-◌};
ghost use Rattle.rules.specs.Times.{crossing_time, detection_time};
ghost use Rattle.session.specs.Queries.{crossing_at, loss_at};
ghost use Rattle.conditions.specs.Standing.{place_stands};
ghost use Rattle.octets.specs.Refusals.{answer_in};
ghost use Rattle.cause.specs.FromMarks.{later_by, candidate, ends_before, later_of, best_four, best_of, because, because_of, stands_as, cause_from};

use crate::{Cause, Marks, Thing};
use conditions::{Condition, Conditions};
use octets::Refusal;
use rules::Key;
use session::Session;

// A place as a candidate: whether it is one, its record number, its condition and its end. The mark stands beside them, no
// Option: what is said of the place that is named (`words_from`) is read of it whether it stands or not.
#[derive(Clone, Copy)]
pub struct Candidate {
    pub place: Condition,
    pub number: u64,
    pub end: u64,
    pub stands: bool,
}

fn later_by(at: u64, time: u64) -> u64
    ensures { result ≡ later_by at time }
{
    at.saturating_add(time)
}

fn age_at(now: u64, at: u64) -> u64
    ensures { result ≡ now - at }
{
    now.saturating_sub(at)
}

fn answer_if(test: bool, now: u64, number: u64, at: u64, end: u64) -> Result<Cause, Refusal>
    ensures { answer_in result ≡ because test now number at end }
{
    if !test {
        return Err(Refusal::NotStanding);
    }
    Ok(Cause {
        number,
        reading: at,
        age: age_at(now, at),
        end,
    })
}

fn as_candidate(test: bool, c: Condition, number: u64) -> Candidate
    ensures { result ≡ candidate test c number }
{
    Candidate {
        place: c,
        number,
        end: later_by(c.at, rules::lifetime_of(c.refresh)),
        stands: test,
    }
}

fn ends_before(j: Candidate, k: Candidate) -> bool
    ensures { result ≡ ends_before j k }
{
    j.end < k.end || (j.end == k.end && j.number < k.number)
}

// Of two the one that ends last, of equal ends the greater number; one that is none yields.
fn later_of(j: Candidate, k: Candidate) -> Candidate
    ensures { result ≡ later_of j k }
{
    if !j.stands {
        return k;
    }
    if !k.stands {
        return j;
    }
    if ends_before(j, k) { k } else { j }
}

fn best_of(a: bool, b: bool, c: bool, d: bool, cs: Conditions, m: Marks) -> Candidate
    ensures { result ≡ best_four a b c d cs m }
{
    let first = as_candidate(a, cs.first, m.first);
    let second = as_candidate(b, cs.second, m.second);
    let third = as_candidate(c, cs.third, m.third);
    let fourth = as_candidate(d, cs.fourth, m.fourth);
    later_of(first, later_of(second, later_of(third, fourth)))
}

fn because_of(now: u64, c: Candidate) -> Result<Cause, Refusal>
    ensures { answer_in result ≡ because_of now c }
{
    answer_if(c.stands, now, c.number, c.place.at, c.end)
}

fn stands_as(c: Condition, key: Key, now: u64) -> bool
    ensures { result ≡ stands_as key now c }
{
    conditions::does_stand(c, now) && rules::same_key(c.key, key)
}

// The place of the condition of a key.
pub fn best_of_key(m: Marks, cs: Conditions, now: u64, key: Key) -> Candidate
    ensures { result ≡ best_of (stands_as key now) cs m }
{
    let a = stands_as(cs.first, key, now);
    let b = stands_as(cs.second, key, now);
    let c = stands_as(cs.third, key, now);
    let d = stands_as(cs.fourth, key, now);
    best_of(a, b, c, d, cs, m)
}

// The place of the condition that ends last.
#[tactic(auto, unfolding(conditions::specs::Standing::place_stands))]
pub fn best_standing(m: Marks, cs: Conditions, now: u64) -> Candidate
    ensures { result ≡ best_of (λ c. place_stands c now) cs m }
{
    let a = conditions::does_stand(cs.first, now);
    let b = conditions::does_stand(cs.second, now);
    let c = conditions::does_stand(cs.third, now);
    let d = conditions::does_stand(cs.fourth, now);
    best_of(a, b, c, d, cs, m)
}

#[tactic(auto, unfolding(session::specs::Queries::crossing_at))]
fn crossing_from(m: Marks, r: Session, now: u64) -> Result<Cause, Refusal>
    ensures { answer_in result ≡ because (crossing_at r now) now m.crossed r.crossed (later_by r.crossed crossing_time) }
{
    let end = later_by(r.crossed, 3_500_000);
    answer_if(session::crossing_at(r, now), now, m.crossed, r.crossed, end)
}

// How long after what it is timed from a loss first stands.
fn loss_time(period: u32, multiplier: u8) -> u64
    ensures { result ≡ suc (detection_time period multiplier) }
{
    rules::detection_time(period, multiplier) + 1
}

#[tactic(auto, unfolding(session::specs::Queries::loss_at))]
fn loss_from(m: Marks, r: Session, now: u64) -> Result<Cause, Refusal>
    ensures { answer_in result ≡ because (loss_at r now) now m.timed r.timed (later_by r.timed (suc (detection_time r.settings.period r.peer.multiplier))) }
{
    let time = loss_time(r.settings.period, r.peer.multiplier);
    let end = later_by(r.timed, time);
    answer_if(session::loss_at(r, now), now, m.timed, r.timed, end)
}

// Of a session's record at a clock, with the marks that were kept beside it.
#[tactic(auto, unfolding(crate::specs::FromMarks::cause_from))]
pub fn cause_from(m: Marks, r: Session, now: u64, thing: Thing) -> Result<Cause, Refusal>
    ensures { answer_in result ≡ cause_from m r now thing }
{
    let cs = r.conditions;
    match thing {
        Thing::Crossing => crossing_from(m, r, now),
        Thing::Loss => loss_from(m, r, now),
        Thing::Condition(key) => because_of(now, best_of_key(m, cs, now, key)),
        Thing::HeldBack => {
            if session::loss_at(r, now) {
                return because_of(now, best_standing(m, cs, now));
            }
            Err(Refusal::NotStanding)
        }
    }
}
