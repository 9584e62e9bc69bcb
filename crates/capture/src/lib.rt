// Captures: the header, a cursor over records, the settings that an open brings, and the lines for
// answers.
#![tactic(auto)]

mod lines;
mod places;
mod records;

pub use lines::{
    put_decimal, put_placed, put_plain, put_report, put_reported, put_spaced, put_words,
    put_written,
};
pub use places::{get_at, put_at};
pub use records::{
    body_at, header_fits, is_marked, is_whole, next_record, record_at, record_in, settings_in,
};

// The 16 octets before a body. A kind is a number, and no enum: the definitions `record_in` and
// `next_of` take any 16 bits for one, and a record of an unknown kind is broken.
#[derive(Clone, Copy, Debug, PartialEq, Eq)]
pub struct Record {
    pub time: u64,
    pub label: u32,
    pub kind: u16,
    pub size: u16,
}

// What stands at a place of a capture: a whole record, one that no octet to come can mend, part of
// one, or nothing.
#[derive(Clone, Copy, Debug, PartialEq, Eq)]
pub enum Next {
    Whole(Record),
    Broken,
    Short,
    End,
}
