// The numbers and tables of the rules paper: what both the meaning of a history and the records need
// and neither owns. Every function is over numbers, marks and small values.
#![tactic(auto)]

mod classes;
mod diagnostics;
mod keys;
mod modes;
mod moves;
mod parties;
mod ranges;
mod times;

use bfd::Packet;
pub use classes::{cv_crosses, is_foreign};
use cv::MepId;
pub use diagnostics::{diagnostic_of, loss_alarm, remote_defect};
use fault::Fault;
pub use keys::{fault_input, is_followed, key_of, same_key};
pub use modes::{is_exposed, move_by, required_interval};
pub use moves::{
    coming_up, coordinated_move, down_by_neighbor, heard_input, locked, report_number,
    stored_number,
};
pub use parties::{own_label, party_of};
pub use ranges::settings_fit;
pub use times::{detection_time, is_late, is_past, is_within, lifetime_of};

// AdminDown is locked; NeighborDown is DOWN by a received state, remembered until DOWN is left.
#[derive(Clone, Copy, Debug, PartialEq, Eq)]
pub enum State {
    AdminDown,
    Down,
    NeighborDown,
    Init,
    Up,
}

// What moves a session: a received state, a loss, LDI, LKR, a crossed message.
#[derive(Clone, Copy, Debug, PartialEq, Eq)]
pub enum Input {
    GotAdminDown,
    GotDown,
    GotInit,
    GotUp,
    Timer,
    LinkDown,
    LockReport,
    Crossed,
}

// A session of its own for both directions, or of two sessions, one for each direction, the one that sends
// or the one that only answers (RFC 6428, 3.7).
#[derive(Clone, Copy, Debug, PartialEq, Eq)]
pub enum Mode {
    Coordinated,
    Source,
    Sink,
}

// Numbers alone, so that a record that holds them can be lent by any caller. `followlink` and `followlock` are
// the marks follow link-down and follow lock, 0 or 1; `mode` is 0 coordinated, 1 source, 2 sink.
#[repr(C)]
#[derive(Clone, Copy)]
pub struct Settings {
    pub own: MepId,
    pub expected: MepId,
    pub label: u32,
    pub discriminator: u32,
    pub period: u32,
    pub followlink: u8,
    pub followlock: u8,
    pub mode: u8,
}

// A label, and the party whose call names it.
#[repr(C)]
#[derive(Clone, Copy)]
pub struct Circuit {
    pub label: u32,
    pub party: u32,
}

// What tells one condition from another: type 1 AIS or 2 LKR, an IF_ID, and a Global_ID. `present` is 1
// where there is an IF_ID, `carrier` 1 where there is a Global_ID, each 0 where there is none.
#[repr(C)]
#[derive(Clone, Copy)]
pub struct Key {
    pub node: u32,
    pub interface: u32,
    pub global: u32,
    pub kind: u8,
    pub present: u8,
    pub carrier: u8,
}

// What a message is to the session of its label.
#[derive(Clone, Copy, Debug, PartialEq, Eq)]
pub enum Received {
    CrossedMessage,
    HeardCc(Packet),
    HeardCv,
    FaultMessage(Fault),
}

// The seven numbers of a report.
#[derive(Clone, Copy, Debug, PartialEq, Eq)]
pub struct Report {
    pub state: u8,
    pub crossing: u8,
    pub loss: u8,
    pub alarm: u8,
    pub rdi: u8,
    pub blocked: u8,
    pub conditions: u8,
}
