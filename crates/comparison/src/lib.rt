// Two captures compared record by record at the same position, over all fields: the list of what
// differs, and what is left of the first from there on.
#![tactic(auto)]

mod entries;
mod pair;
mod remaining;
mod words;

pub use entries::compare;
pub use pair::{is_unmarked, marks_of, stands, step_of};
pub use remaining::{bad_capture, rest, rest_place};
pub use words::{put_entry, put_pair, put_refused, put_rest};

// What is listed of the records at one position: the fields that differ, or whose an extra one is.
#[derive(Clone, Copy, Debug, Default, PartialEq, Eq)]
pub struct Marks {
    pub time: bool,
    pub label: bool,
    pub kind: bool,
    pub size: bool,
    pub body: bool,
    pub first: bool,
    pub second: bool,
}
