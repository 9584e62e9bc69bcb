// What one record adds to the scan, and what the scan comes to.
ghost use Rattle.std.specs.Prelude.{◌≡◌, not, ◌&&◌, cond, eqb, ltb, length, set, ◌-◌};
ghost use Rattle.scan.specs.Passing.{start_of, passed, passed_with, failed, taken_in, noted_group, noted, apart, groups_apart, own_count, share_in, judged_of};

use crate::keys::{
    behind, distinct, each_once, first_of, group_key, key_pair, place_in, rival_in, theirs_in,
};
use crate::{Progress, Share, Summary, Target};
use session::Session;
use table::Head;

// Before the first record; a row that is not of 64 is unsound, and nothing in it is looked at.
#[tactic(auto, unfolding(crate::specs::Passing::start_of))]
pub fn start(records: usize, head: Head, target: Target) -> Progress
    ensures { result ≡ start_of records head target }
{
    let whole = records == 64;
    Progress {
        clock: head.clock,
        occupied: head.occupied,
        rest: if whole { head.occupied } else { 0 },
        fault: if whole { 0 } else { 1 },
        label: target.label,
        discriminator: target.discriminator,
        grouped: 0,
    }
}

// There is an occupied place from here on, and a record at this one.
pub fn more(s: Progress, at: usize, records: usize) -> bool
    ensures { result ≡ (not (eqb s.rest 0) && ltb at records) }
{
    s.rest != 0 && at < records
}

#[tactic(auto, unfolding(crate::specs::Passing::passed_with))]
fn passed_by(s: Progress) -> Progress
    ensures { result ≡ passed s }
{
    Progress {
        rest: s.rest / 2,
        ..s
    }
}

#[tactic(auto, unfolding(crate::specs::Passing::passed_with))]
fn passed_group(s: Progress) -> Progress
    ensures { result ≡ passed_with 1 s }
{
    Progress {
        grouped: 1,
        ..passed_by(s)
    }
}

// The first record that is not sound ends the pass. What is left of the set is no 0, and at hand: a
// number of its own would be loaded ahead of every test that can fail.
#[tactic(auto, unfolding(crate::specs::Passing::failed))]
fn failed_at(s: Progress) -> Progress
    ensures { result ≡ failed s }
{
    Progress {
        rest: 0,
        fault: s.rest,
        ..s
    }
}

fn note(pairs: &mut [u64], at: usize, pair: u64)
    ensures { pairs.new ≡ set pairs.old at pair }
{
    if at < pairs.len() {
        pairs[at] = pair;
    }
}

// The key of a group, 64 places behind its record's.
#[tactic(auto, unfolding(crate::specs::Passing::noted_group))]
fn note_group(pairs: &mut [u64], at: usize, key: u64)
    ensures { pairs.new ≡ noted_group pairs.old at key }
{
    if at < 64 {
        note(pairs, at + 64, key);
    }
}

// One record is taken in. It is looked at only where its place is occupied. What is noted is noted last:
// behind a store the record would be loaded whole.
#[tactic(auto, unfolding(crate::specs::Passing::noted, crate::specs::Passing::noted_open, crate::specs::Passing::taken_in))]
pub fn take_in(pairs: &mut [u64], s: Progress, at: usize, r: Session) -> Progress
    ensures { (result ≡ taken_in s at r) × (pairs.new ≡ noted pairs.old s at r) }
{
    if s.rest % 2 == 1 {
        if session::session_sound(r, s.clock) {
            let pair = key_pair(r.settings.label, r.settings.discriminator);
            if r.group.set == 1 {
                let key = group_key(r.settings.label, r.group.id);
                note(&mut *pairs, at, pair);
                note_group(&mut *pairs, at, key);
                return passed_group(s);
            }
            note(pairs, at, pair);
            return passed_by(s);
        }
        return failed_at(s);
    }
    passed_by(s)
}

// No two keys are alike; one record alone has nothing to be alike to.
#[tactic(auto, unfolding(crate::specs::Passing::apart))]
fn apart_by(pairs: &[u64], occupied: u64) -> bool
    ensures { result ≡ apart pairs.now occupied }
{
    table::open_count(occupied) < 2 || distinct(pairs, occupied)
}

// The party of the label has opened all that it may.
fn is_full(label: u32, ours: u64, theirs: u64) -> bool
    ensures { result ≡ eqb (own_count label ours theirs) 32 }
{
    let own = if rules::party_of(label) == 0 {
        ours
    } else {
        theirs
    };
    own == 32
}

// Where fewer than 32 are open nobody has 32, and none is counted.
#[tactic(auto, unfolding(crate::specs::Passing::share_in))]
fn share_by(pairs: &[u64], occupied: u64, label: u32) -> Share
    ensures { result ≡ share_in pairs.now occupied label }
{
    let open = table::open_count(occupied);
    if open < 32 {
        return Share {
            kept: true,
            full: false,
        };
    }
    let theirs = theirs_in(pairs);
    let ours = (open as u64).saturating_sub(theirs);
    Share {
        kept: ours <= 32 && theirs <= 32,
        full: is_full(label, ours, theirs),
    }
}

// Where no group was met none is looked for.
#[tactic(auto, unfolding(crate::specs::Passing::groups_apart))]
fn groups_apart(keys: &[u64], grouped: u64) -> bool
    ensures { result ≡ groups_apart keys.now grouped }
{
    grouped == 0 || each_once(keys)
}

// What the scan comes to. A fault is asked for last: asked first, every test of the pass that can fail
// would carry the whole answer with it.
#[tactic(auto, unfolding(crate::specs::Passing::judged_of))]
pub fn judged(noted: &[u64], s: Progress) -> Summary
    ensures { result ≡ judged_of noted.now s }
{
    let pairs = first_of(noted, 64);
    let apart = apart_by(pairs, s.occupied);
    let share = share_by(pairs, s.occupied, s.label);
    let place = place_in(pairs, s.occupied, s.label);
    let groups = groups_apart(behind(noted, 64), s.grouped);
    Summary {
        place,
        sound: s.fault == 0 && apart && share.kept && groups,
        rival: rival_in(pairs, s.occupied, place, s.label, s.discriminator),
        full: share.full,
    }
}
