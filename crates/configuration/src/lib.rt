// Settings of a session from LSP Ping records (document 004, 3.2): nested TLVs, down to three levels,
// that carry a local discriminator and a period.
#![tactic(auto)]

mod entry;
mod list;
mod read;
mod write;

pub use read::read_configuration;
pub use write::write_configuration;

// What a configuration offers.
#[derive(Clone, Copy, Debug, PartialEq, Eq)]
pub struct Offer {
    pub discriminator: u32,
    pub period: u32,
}

// What was met among the entries so far: the two numbers, how often each needed entry was met (2 for
// many), whether an entry ran past its holder's end, whether a known one had a wrong length.
#[derive(Clone, Copy, Debug, PartialEq, Eq)]
pub struct Seen {
    pub discriminator: u32,
    pub period: u32,
    pub functions: u8,
    pub configurations: u8,
    pub discriminators: u8,
    pub timers: u8,
    pub past: bool,
    pub wrong: bool,
}
