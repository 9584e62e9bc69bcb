// A dual-homing group (RFC 8185) by value: what the operator's calls, a loss, a crossed message and a
// DHC message make of it, and what it forwards. No record and no table: those who hold a group hand it in,
// with what they know of its service PW and its DNI-PW.
#![tactic(auto)]

mod fitting;
mod paths;
mod received;
mod setting;
mod steps;

pub use fitting::group_fits;
pub use paths::{forwarding_of, group_report};
pub use received::{coordinated_by, has_id, takes_from};
pub use setting::{group_of, no_group, set_refusal};
pub use steps::{ac_set, fallen_at, fallen_pw, lowered_pw, returned_at};

// Numbers alone, so that a record that holds them can be lent by any caller. `dni` is the label of the
// DNI-PW; the service PW's is that of the record in which the group lies. `set` is 1 where there is a
// group and 0 where there is none; `role` is 0 working, 1 protection; `pw` and `ac` are 0 standby, 1 active.
#[repr(C)]
#[derive(Clone, Copy)]
pub struct Group {
    pub id: u32,
    pub peer: u32,
    pub dni: u32,
    pub set: u8,
    pub role: u8,
    pub pw: u8,
    pub ac: u8,
}

// What setting a group names; a role other than 0 is protection.
#[repr(C)]
#[derive(Clone, Copy)]
pub struct GroupSettings {
    pub id: u32,
    pub peer: u32,
    pub service: u32,
    pub dni: u32,
    pub role: u8,
}

// What the table knows of the labels and the ID that setting names: whether the party has the service PW
// open, and the DNI-PW; whether the service PW has a group; whether some group of the party has the ID.
#[derive(Clone, Copy, Debug, PartialEq, Eq)]
pub struct Found {
    pub service: bool,
    pub dni: bool,
    pub grouped: bool,
    pub taken: bool,
}

// What asking tells: PW and AC, and forwarding: 0 drops all, 1 service PW with AC, 2 service PW with
// DNI-PW, 3 DNI-PW with AC.
#[repr(C)]
#[derive(Clone, Copy)]
pub struct GroupReport {
    pub pw: u8,
    pub ac: u8,
    pub forwarding: u8,
}
