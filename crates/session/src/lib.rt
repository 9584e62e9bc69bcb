// One session's record, by value: what it shows at a clock, what each accepted call does to it, and
// when it is sound. Every step takes the session's own settling (TIMER) with it.
#![tactic(auto)]

mod acts;
mod queries;
mod soundness;
mod steps;

pub use acts::{Acted, Faulted, Live, bfd_act, fault_act, is_fault, with_fault, with_live};
use conditions::Conditions;
use homing::Group;
pub use queries::{
    cc_octets_at, crossing_at, cv_octets_at, cv_size_of, diagnostic_at, group_at, is_locked,
    loss_at, packet_at, report_at, state_at,
};
pub use rules::Report;
use rules::Settings;
pub use soundness::session_sound;
pub use steps::{cc_written, locked_at, opened_at, unlocked_at};

// What the last heard CC gave: remote discriminator (0 is none), multiplier, diagnostic, and 1 where
// a reply to a poll is owed.
#[repr(C)]
#[derive(Clone, Copy)]
pub struct Peer {
    pub remote: u32,
    pub multiplier: u8,
    pub diagnostic: u8,
    pub owed: u8,
}

// The record, numbers alone: the reading that it is timed from (opening, real unlock or last heard
// message), the reading of the last crossed message, the conditions, the settings, the peer, the
// state (0 to 3 as the rules paper has them, 4 for DOWN by a received state), 1 where a crossed
// message came, and the dual-homing group of which this is the service PW.
#[repr(C)]
#[derive(Clone, Copy)]
pub struct Session {
    pub timed: u64,
    pub crossed: u64,
    pub conditions: Conditions,
    pub settings: Settings,
    pub peer: Peer,
    pub state: u8,
    pub crossing: u8,
    pub group: Group,
}
