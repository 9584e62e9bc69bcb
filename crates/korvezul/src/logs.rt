// The records of a log, for a card that appends what it did: writers of `logging`.
ghost use Rattle.std.specs.Prelude.{◌≡◌};
ghost use Rattle.octets.specs.Writing.{writing};
ghost use Rattle.logging.specs.Logging.{header_octets, call_refusal, call_octets, open_refusal, open_octets};

use logging::Logged;
use rules::Settings;

// The eight octets before the first record: 13 for a shorter buffer, and then no byte changes.
#[tactic(auto, unfolding(octets::specs::Writing::writing))]
pub fn korvezul_log_header(buffer: &mut [u8]) -> u32
    ensures { record { answer = result; buffer = buffer.new } ≡ writing 0 header_octets buffer.old }
{
    octets::answer_number(logging::write_header(buffer))
}

// An open, 53 octets: 10 for settings that a record cannot hold, then 13 for the buffer, and then no
// byte changes.
#[tactic(auto, unfolding(logging::specs::Logging::open_octets, logging::specs::Logging::open_refusal, octets::specs::Writing::writing))]
pub fn korvezul_log_open(buffer: &mut [u8], settings: Settings, reading: u64, answer: u16) -> u32
    ensures { record { answer = result; buffer = buffer.new } ≡ writing (open_refusal settings) (open_octets settings reading answer) buffer.old }
{
    octets::answer_number(logging::write_open(buffer, settings, reading, answer))
}

// Any other call, 18 octets and those of a message: 10 for what is no such call, then 13.
#[tactic(auto, unfolding(logging::specs::Logging::call_octets, logging::specs::Logging::call_refusal, octets::specs::Writing::writing))]
pub fn korvezul_log_call(buffer: &mut [u8], what: Logged, message: &[u8]) -> u32
    ensures { record { answer = result; buffer = buffer.new } ≡ writing (call_refusal what message.now) (call_octets what message.now) buffer.old }
{
    octets::answer_number(logging::write_call(buffer, what, message))
}
