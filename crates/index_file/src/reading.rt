// What the octets of an index file are, part by part. What is not there is 0.
ghost use Rattle.std.specs.Prelude.{◌≡◌};
ghost use Rattle.index_file.specs.Octets.{key_in, condition_in, conditions_in, agi_in, mep_in, settings_in, peer_in, session_in, entry_in, head_in};

use crate::Entry;
use conditions::{Condition, Conditions};
use cv::{Agi, MepId};
use indexing::IndexHead;
use octets::{from_place, get_u8, get_u16, get_u32, get_u64};
use rules::{Key, Settings};
use session::{Peer, Session};

fn key_in(s: &[u8]) -> Key
    ensures { result ≡ key_in s.now }
{
    Key {
        node: get_u32(s, 0),
        interface: get_u32(s, 4),
        global: get_u32(s, 8),
        kind: get_u8(s, 12),
        present: get_u8(s, 13),
        carrier: get_u8(s, 14),
    }
}

fn condition_in(s: &[u8]) -> Condition
    ensures { result ≡ condition_in s.now }
{
    Condition {
        at: get_u64(s, 0),
        key: key_in(from_place(s, 8)),
        refresh: get_u8(s, 23),
        linkdown: get_u8(s, 24),
    }
}

#[tactic(auto, unfolding(crate::specs::Octets::conditions_in))]
fn conditions_in(s: &[u8]) -> Conditions
    ensures { result ≡ conditions_in s.now }
{
    Conditions {
        first: condition_in(s),
        second: condition_in(from_place(s, 25)),
        third: condition_in(from_place(s, 50)),
        fourth: condition_in(from_place(s, 75)),
    }
}

fn agi_in(s: &[u8]) -> Agi
    ensures { result ≡ agi_in s.now }
{
    Agi {
        first: get_u64(s, 0),
        second: get_u64(s, 8),
        third: get_u64(s, 16),
        fourth: get_u64(s, 24),
    }
}

fn mep_in(s: &[u8]) -> MepId
    ensures { result ≡ mep_in s.now }
{
    MepId {
        agi: agi_in(s),
        global: get_u32(s, 32),
        node: get_u32(s, 36),
        local: get_u32(s, 40),
        kind: get_u16(s, 44),
        group: get_u8(s, 46),
        size: get_u8(s, 47),
    }
}

#[tactic(auto, unfolding(crate::specs::Octets::settings_in))]
fn settings_in(s: &[u8]) -> Settings
    ensures { result ≡ settings_in s.now }
{
    Settings {
        own: mep_in(s),
        expected: mep_in(from_place(s, 48)),
        label: get_u32(s, 96),
        discriminator: get_u32(s, 100),
        period: get_u32(s, 104),
        followlink: get_u8(s, 108),
        followlock: get_u8(s, 109),
        mode: get_u8(s, 110),
    }
}

#[tactic(auto, unfolding(crate::specs::Octets::peer_in))]
fn peer_in(s: &[u8]) -> Peer
    ensures { result ≡ peer_in s.now }
{
    Peer {
        remote: get_u32(s, 0),
        multiplier: get_u8(s, 4),
        diagnostic: get_u8(s, 5),
        owed: get_u8(s, 6),
    }
}

// A log leaves no record with a group, and so an entry has no octets for one.
#[tactic(auto, unfolding(crate::specs::Octets::session_in))]
fn session_in(s: &[u8]) -> Session
    ensures { result ≡ session_in s.now }
{
    Session {
        timed: get_u64(s, 0),
        crossed: get_u64(s, 8),
        conditions: conditions_in(from_place(s, 16)),
        settings: settings_in(from_place(s, 116)),
        peer: peer_in(from_place(s, 227)),
        state: get_u8(s, 234),
        crossing: get_u8(s, 235),
        group: homing::no_group(),
    }
}

#[tactic(auto, unfolding(crate::specs::Octets::entry_in))]
pub fn entry_in(s: &[u8]) -> Entry
    ensures { result ≡ entry_in s.now }
{
    Entry {
        clock: get_u64(s, 0),
        place: get_u64(s, 8),
        session: session_in(from_place(s, 16)),
    }
}

pub fn head_in(s: &[u8]) -> IndexHead
    ensures { result ≡ head_in s.now }
{
    IndexHead {
        length: get_u64(s, 8),
        label: get_u32(s, 16),
        count: get_u32(s, 20),
    }
}
