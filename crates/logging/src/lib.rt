// One record of a log, written into a lent buffer: what was called, its arguments, and the answer that
// it was given. Who appends what it did has a log that can be asked.
#![tactic(auto)]

mod calls;
mod openings;

ghost use Rattle.std.specs.Prelude.{◌≡◌};
ghost use Rattle.octets.specs.Refusals.{refusal_in};
ghost use Rattle.octets.specs.Writing.{writing};
ghost use Rattle.logging.specs.Logging.{header_octets};

pub use calls::write_call;
use octets::Refusal;
pub use openings::write_open;

// The eight octets before the first record.
pub fn write_header(b: &mut [u8]) -> Result<(), Refusal>
    ensures { record { answer = refusal_in result; buffer = b.new } ≡ writing 0 header_octets b.old }
{
    octets::write_octets(b, b"TPL\0\x01\0\0\0")
}

// What was called on which label at which reading, by the kinds of a capture, and what it was answered.
// Where a call has no label or brings no reading, the number is not read. Kind and answer are numbers,
// and no enums: C lends the record, and the definitions `call_fits` and `head_octets` take any 16 bits.
#[repr(C)]
#[derive(Clone, Copy)]
pub struct Logged {
    pub time: u64,
    pub label: u32,
    pub kind: u16,
    pub answer: u16,
}
