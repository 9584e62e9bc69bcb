// What `why` does between its system calls: the question from its arguments, a capture read piece by
// piece for the label that is asked about, and the text of the answer.
#![tactic(auto)]

mod question;
mod search;
mod words;

pub use question::{
    Question, is_asked, label_of, no_question, number_in, take_word, thing_of, upto_of,
};
pub use search::{Search, ended, got, put_text, start};
pub use words::put_usage;
