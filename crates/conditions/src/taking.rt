// What a fault message does to the four places.
ghost use Rattle.std.specs.Prelude.{◌≡◌, cond, not, ◌&&◌, eqb};
ghost use Rattle.rules.specs.Conditions.{same_key};
ghost use Rattle.conditions.specs.Standing.{place_stands};
ghost use Rattle.conditions.specs.Taking.{empty, no_conditions, without, forgotten, free_place, placed, condition_of, fault_answer, taken_in};

use crate::standing::does_stand;
use crate::{Condition, Conditions, Verdict};
use fault::Fault;
use rules::Key;

fn empty_place() -> Condition
    ensures { result ≡ empty }
{
    Condition {
        at: 0,
        key: Key {
            node: 0,
            interface: 0,
            global: 0,
            kind: 0,
            present: 0,
            carrier: 0,
        },
        refresh: 0,
        linkdown: 0,
    }
}

// What a session starts with.
pub fn no_conditions() -> Conditions
    ensures { result ≡ no_conditions }
{
    let c = empty_place();
    Conditions {
        first: c,
        second: c,
        third: c,
        fourth: c,
    }
}

#[tactic(auto, unfolding(rules::specs::Conditions::same_key))]
fn has_key(c: Condition, key: Key) -> bool
    ensures { result ≡ same_key c.key key }
{
    rules::same_key(c.key, key)
}

// Whether a condition of another key stands in a place.
#[tactic(auto, unfolding(crate::specs::Standing::place_stands))]
fn stands_beside(key: Key, c: Condition, now: u64) -> bool
    ensures { result ≡ place_stands (without key c) now }
{
    !has_key(c, key) && does_stand(c, now)
}

// The place of the first of four marks that is not set, 4 where all are.
fn first_clear(a: bool, b: bool, c: bool, d: bool) -> u8
    ensures { result ≡ cond a (cond b (cond c (cond d 4 3) 2) 1) 0 }
{
    match (a, b, c, d) {
        (false, _, _, _) => 0,
        (true, false, _, _) => 1,
        (true, true, false, _) => 2,
        (true, true, true, false) => 3,
        (true, true, true, true) => 4,
    }
}

// The first place in which no condition of another key stands, 4 where four do.
#[tactic(auto, unfolding(crate::specs::Taking::forgotten, crate::specs::Taking::free_place))]
fn free_beside(cs: Conditions, key: Key, now: u64) -> u8
    ensures { result ≡ free_place (forgotten cs key) now }
{
    let a = stands_beside(key, cs.first, now);
    let b = stands_beside(key, cs.second, now);
    let c = stands_beside(key, cs.third, now);
    let d = stands_beside(key, cs.fourth, now);
    first_clear(a, b, c, d)
}

// One place behind the message: its condition, or nothing where its key was, or as it was.
fn place_after(here: bool, key: Key, c: Condition, own: Condition) -> Condition
    ensures { result ≡ cond here c (without key own) }
{
    if here {
        return c;
    }
    if has_key(own, key) {
        empty_place()
    } else {
        own
    }
}

#[tactic(auto, unfolding(crate::specs::Taking::forgotten, crate::specs::Taking::placed))]
fn places_after(cs: Conditions, key: Key, at: u8, c: Condition) -> Conditions
    ensures { result ≡ placed (forgotten cs key) at c }
{
    Conditions {
        first: place_after(at == 0, key, c, cs.first),
        second: place_after(at == 1, key, c, cs.second),
        third: place_after(at == 2, key, c, cs.third),
        fourth: place_after(at == 3, key, c, cs.fourth),
    }
}

fn condition_of(f: Fault, now: u64) -> Condition
    ensures { result ≡ condition_of f now }
{
    Condition {
        at: now,
        key: rules::key_of(f),
        refresh: f.refresh,
        linkdown: u8::from(f.linkdown),
    }
}

fn answer_by(removed: bool, free: u8) -> u32
    ensures { result ≡ cond (not removed && eqb free 4) 9 0 }
{
    if !removed && free == 4 { 9 } else { 0 }
}

fn place_by(removed: bool, free: u8) -> u8
    ensures { result ≡ cond removed 4 free }
{
    if removed { 4 } else { free }
}

// The places after an accepted fault message, and its answer.
#[tactic(auto, unfolding(crate::specs::Taking::fault_answer, crate::specs::Taking::taken_in))]
pub fn take_fault(cs: Conditions, f: Fault, now: u64) -> Verdict
    ensures { result ≡ record { places = taken_in cs f now; answer = fault_answer cs f now } }
{
    let key = rules::key_of(f);
    let free = free_beside(cs, key, now);
    let c = condition_of(f, now);
    let places = places_after(cs, key, place_by(f.removed, free), c);
    let answer = answer_by(f.removed, free);
    Verdict { places, answer }
}
