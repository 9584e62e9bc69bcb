// Which conditions stand.
ghost use Rattle.std.specs.Prelude.{◌≡◌, not, ◌&&◌, eqb};
ghost use Rattle.rules.specs.Conditions.{follows_with};
ghost use Rattle.conditions.specs.Standing.{fresh, place_stands, count_at, followed_with, any_followed_with, any_marked_with};

use crate::{Condition, Conditions};

#[tactic(auto, unfolding(crate::specs::Standing::fresh))]
pub fn is_fresh(c: Condition, now: u64) -> bool
    ensures { result ≡ fresh c now }
{
    rules::is_within(c.at, rules::lifetime_of(c.refresh), now)
}

#[tactic(auto, unfolding(crate::specs::Standing::place_stands))]
pub fn does_stand(c: Condition, now: u64) -> bool
    ensures { result ≡ place_stands c now }
{
    c.key.kind != 0 && is_fresh(c, now)
}

// How many conditions stand, at most four.
#[tactic(auto, unfolding(crate::specs::Standing::count_at))]
pub fn count_at(cs: Conditions, now: u64) -> u8
    ensures { result ≡ count_at cs now }
{
    u8::from(does_stand(cs.first, now))
        + u8::from(does_stand(cs.second, now))
        + u8::from(does_stand(cs.third, now))
        + u8::from(does_stand(cs.fourth, now))
}

// The marks are asked before the dates: every heard CC comes by here, and most sessions follow
// nothing that stands.
#[tactic(auto, unfolding(crate::specs::Standing::followed_with))]
fn followed_with(link: u8, lock: u8, c: Condition, now: u64) -> bool
    ensures { result ≡ followed_with link lock c now }
{
    rules::is_followed(link, lock, c.key.kind, c.linkdown == 1) && does_stand(c, now)
}

// Whether a condition stands that a session with these two marks follows. Two numbers go in for the
// settings: a record stays in the row, and what is handed on of it is copied.
#[tactic(auto, unfolding(crate::specs::Standing::any_followed_with))]
pub fn any_followed(link: u8, lock: u8, cs: Conditions, now: u64) -> bool
    ensures { result ≡ any_followed_with link lock cs now }
{
    followed_with(link, lock, cs.first, now)
        || followed_with(link, lock, cs.second, now)
        || followed_with(link, lock, cs.third, now)
        || followed_with(link, lock, cs.fourth, now)
}

#[tactic(auto, unfolding(rules::specs::Conditions::follows_with))]
fn is_marked(link: u8, lock: u8, kind: u8, linkdown: u8) -> bool
    ensures { result ≡ (not (eqb kind 0) && follows_with link lock kind (eqb linkdown 1)) }
{
    kind != 0 && rules::is_followed(link, lock, kind, linkdown == 1)
}

// Whether a place is filled with what is followed, whatever its date. Where none is, nothing is
// followed, and no date is asked for.
#[tactic(auto, unfolding(crate::specs::Standing::any_marked_with))]
pub fn any_marked(link: u8, lock: u8, cs: Conditions) -> bool
    ensures { result ≡ any_marked_with link lock cs }
{
    is_marked(link, lock, cs.first.key.kind, cs.first.linkdown)
        || is_marked(link, lock, cs.second.key.kind, cs.second.linkdown)
        || is_marked(link, lock, cs.third.key.kind, cs.third.linkdown)
        || is_marked(link, lock, cs.fourth.key.kind, cs.fourth.linkdown)
}
