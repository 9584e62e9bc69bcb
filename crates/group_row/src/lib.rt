// The calls on groups on a lent row: the search for the record that has a group, what a call sees of
// the row, and the call by what was seen.
#![tactic(auto)]

mod holding;
mod known;
mod seeing;

pub use holding::find_group;
pub use known::group_at;
pub use seeing::group_seen;
