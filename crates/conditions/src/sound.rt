// Refusal 26 for the four places: early returns over numbers, nothing asked of an empty place. This is
// asked of every open session on every call, and most of them hold no condition or one: those two
// cases are tested first, on the types alone, so that nothing else is loaded. Where there are more,
// each place is looked at once, and only what tells its key is kept for the comparisons.
ghost use Rattle.std.specs.Prelude.{◌≡◌, ◌&&◌, ◌||◌, eqb, ltb, leb};
ghost use Rattle.conditions.specs.Soundness.{fields_sound, place_sound, conditions_sound};
ghost use Rattle.conditions.specs.Digests.{blank_of, marked_by, tag_with, key_digest, digest_of, alike};

use crate::standing::is_fresh;
use crate::{Condition, Conditions};
use rules::Key;

// Three marks, 0 or 1 each. The compiler makes one comparison of the three.
fn marks_sound(present: u8, carrier: u8, linkdown: u8) -> bool
    ensures { result ≡ (ltb present 2 && ltb carrier 2 && ltb linkdown 2) }
{
    present < 2 && carrier < 2 && linkdown < 2
}

fn times_sound(refresh: u8, at: u64, clock: u64) -> bool
    ensures { result ≡ (leb 1 refresh && leb refresh 20 && leb at clock) }
{
    1 <= refresh && refresh <= 20 && at <= clock
}

fn fields_sound(
    kind: u8,
    present: u8,
    carrier: u8,
    linkdown: u8,
    refresh: u8,
    at: u64,
    clock: u64,
) -> bool
    ensures { result ≡ fields_sound kind present carrier linkdown refresh at clock }
{
    kind <= 2 && marks_sound(present, carrier, linkdown) && times_sound(refresh, at, clock)
}

#[tactic(auto, unfolding(crate::specs::Soundness::place_sound))]
fn place_sound(c: Condition, clock: u64) -> bool
    ensures { result ≡ place_sound c clock }
{
    c.key.kind == 0
        || fields_sound(
            c.key.kind,
            c.key.present,
            c.key.carrier,
            c.linkdown,
            c.refresh,
            c.at,
            clock,
        )
}

// What is kept of a place once it has been looked at: whether its fields are sound, and, where its
// condition stands, its type, its two marks and its Global_ID in one number, and the IF_ID as one word.
// The tag is 0 where nothing stands. Two numbers in place of a condition's fields: a place is done
// with before the next one is loaded. A mark and no Option: `alike` and `blank_of` speak of the numbers of a place that is
// out of order too.
#[derive(Clone, Copy)]
struct Digest {
    sound: bool,
    tag: u64,
    word: u64,
}

fn blank(sound: bool) -> Digest
    ensures { result ≡ blank_of sound }
{
    Digest {
        sound,
        tag: 0,
        word: 0,
    }
}

// A number that is there only where its mark is not 0.
#[tactic(auto, unfolding(crate::specs::Digests::marked_by))]
fn marked(mark: u8, number: u64) -> u64
    ensures { result ≡ marked_by mark number }
{
    if mark == 0 { 0 } else { number }
}

#[tactic(auto, unfolding(crate::specs::Digests::tag_with))]
fn tag_of(kind: u8, present: u8, carrier: u8, global: u32) -> u64
    ensures { result ≡ tag_with kind present carrier global }
{
    let head = 4 * kind as u64 + 2 * present as u64 + carrier as u64;
    head * 4294967296 + marked(carrier, global as u64)
}

fn key_digest(k: Key) -> Digest
    ensures { result ≡ key_digest k }
{
    Digest {
        sound: true,
        tag: tag_of(k.kind, k.present, k.carrier, k.global),
        word: marked(k.present, k.interface as u64 * 4294967296 + k.node as u64),
    }
}

#[tactic(auto, unfolding(crate::specs::Digests::digest_of))]
fn digest_of(c: Condition, clock: u64) -> Digest
    ensures { result ≡ digest_of c clock }
{
    if c.key.kind == 0 {
        return blank(true);
    }
    if fields_sound(
        c.key.kind,
        c.key.present,
        c.key.carrier,
        c.linkdown,
        c.refresh,
        c.at,
        clock,
    ) {
        if is_fresh(c, clock) {
            return key_digest(c.key);
        }
        return blank(true);
    }
    blank(false)
}

// Whether two standing conditions have one key.
#[tactic(auto, unfolding(crate::specs::Digests::alike))]
fn are_alike(x: Digest, y: Digest) -> bool
    ensures { result ≡ alike x y }
{
    y.tag != 0 && x.tag == y.tag && x.word == y.word
}

// Whether a condition has the key of one of the two before it.
#[tactic(auto, unfolding(crate::specs::Digests::alike))]
fn is_alike_to(d: Digest, a: Digest, b: Digest) -> bool
    ensures { result ≡ (alike a d || alike b d) }
{
    are_alike(a, d) || are_alike(b, d)
}

fn three_empty(second: u8, third: u8, fourth: u8) -> bool
    ensures { result ≡ (eqb second 0 && eqb third 0 && eqb fourth 0) }
{
    second == 0 && third == 0 && fourth == 0
}

pub fn four_empty(first: u8, second: u8, third: u8, fourth: u8) -> bool
    ensures { result ≡ (eqb first 0 && eqb second 0 && eqb third 0 && eqb fourth 0) }
{
    first == 0 && three_empty(second, third, fourth)
}

// Where several places are filled: each is looked at once, and compared with those before it.
#[tactic(auto, unfolding(crate::specs::Soundness::conditions_sound))]
fn several_sound(cs: Conditions, clock: u64) -> bool
    ensures { result ≡ conditions_sound cs clock }
{
    let a = digest_of(cs.first, clock);
    if !a.sound {
        return false;
    }
    let b = digest_of(cs.second, clock);
    if !b.sound {
        return false;
    }
    if are_alike(a, b) {
        return false;
    }
    let c = digest_of(cs.third, clock);
    if !c.sound {
        return false;
    }
    if is_alike_to(c, a, b) {
        return false;
    }
    let d = digest_of(cs.fourth, clock);
    if !d.sound {
        return false;
    }
    if is_alike_to(d, a, b) {
        return false;
    }
    if are_alike(c, d) {
        return false;
    }
    true
}

// The clauses of 26 for the four places.
#[tactic(auto, unfolding(crate::specs::Soundness::conditions_sound))]
pub fn conditions_sound(cs: Conditions, clock: u64) -> bool
    ensures { result ≡ conditions_sound cs clock }
{
    if four_empty(
        cs.first.key.kind,
        cs.second.key.kind,
        cs.third.key.kind,
        cs.fourth.key.kind,
    ) {
        return true;
    }
    if three_empty(cs.second.key.kind, cs.third.key.kind, cs.fourth.key.kind) {
        return place_sound(cs.first, clock);
    }
    several_sound(cs, clock)
}
