// What each call on a dual-homing group answers and does, once it is known whether the table is in
// order, and where the labels and the group stand: by value, on the one record that it concerns. What
// the lent row adds is where that record comes from and where it goes.
#![tactic(auto)]

mod asked;
mod decision;
mod effect;

pub use asked::{group_target, heard, is_dhc, is_holder, plain_target, seen_by};
use coordination::Dhc;
pub use effect::{group_acted, group_step, group_told, is_up};
use homing::GroupSettings;
use table::Head;

// The calls on groups. The operator's bring the party first: setting, with the settings and a reading;
// the AC, with ID, AC and reading; return, with ID and reading; asking, with the ID, and no reading. A
// DHC message brings the label that it came on, the reader's refusal, what was read, and a reading. The refusal is a number:
// `answer_of` is said of every one.
#[derive(Clone, Copy)]
pub enum GroupRequest {
    Set(u32, GroupSettings, u64),
    Ac(u32, u32, u8, u64),
    Return(u32, u32, u64),
    Heard(u32, u32, Dhc, u64),
    Ask(u32, u32),
}

// What a call looks for in the row: the session of a label, that of a second one, and the group of an
// ID in a party. The record that it meets is that of the label where it is `named`, else the group's.
#[derive(Clone, Copy)]
pub struct GroupTarget {
    pub label: u32,
    pub second: u32,
    pub party: u32,
    pub id: u32,
    pub named: bool,
}

// What is known of the row: the place of the record that is met, whether the table is in order, whether
// the first label is open, whether the second is, and whether there is a group of the ID in the party.
#[derive(Clone, Copy)]
pub struct GroupSeen {
    pub place: usize,
    pub sound: bool,
    pub first: bool,
    pub second: bool,
    pub taken: bool,
}

// What asking tells beside its number: the label of the DNI-PW, and PW and AC at the clock. Whether the
// DNI-PW is up stands in another record. Noughts of any other call, and of a refused one.
#[derive(Clone, Copy)]
pub struct GroupTold {
    pub dni: u32,
    pub pw: u8,
    pub ac: u8,
}

// What comes of a call: clock and set afterwards, what it tells, the answer. The answer is a number, 0 where nothing is
// refused: the C interface returns it, and the theorems on a group's step speak of it.
#[derive(Clone, Copy)]
pub struct GroupOutcome {
    pub head: Head,
    pub told: GroupTold,
    pub answer: u32,
}

// The outcome, and the place that is stored to; past the row's end nothing is stored.
#[derive(Clone, Copy)]
pub struct GroupStepped {
    pub outcome: GroupOutcome,
    pub place: usize,
}
