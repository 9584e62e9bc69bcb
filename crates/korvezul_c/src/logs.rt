// The writers of a log's records, exported.
ghost use Rattle.std.specs.Prelude.{◌≡◌};
ghost use Rattle.octets.specs.Writing.{writing};
ghost use Rattle.logging.specs.Logging.{header_octets, call_refusal, call_octets, open_refusal, open_octets};

use logging::Logged;
use rules::Settings;

// The eight octets before the first record: 13 for a shorter buffer, and then no byte changes.
#[unsafe(no_mangle)]
pub extern "C" fn korvezul_log_header(buffer: &mut [u8]) -> u32
    ensures { record { answer = result; buffer = buffer.new } ≡ writing 0 header_octets buffer.old }
{
    korvezul::logs::korvezul_log_header(buffer)
}

// An open, 53 octets: 10 for settings that a record cannot hold, then 13 for the buffer, and then no
// byte changes.
#[unsafe(no_mangle)]
pub extern "C" fn korvezul_log_open(
    buffer: &mut [u8],
    settings: Settings,
    reading: u64,
    answer: u16,
) -> u32
    ensures { record { answer = result; buffer = buffer.new } ≡ writing (open_refusal settings) (open_octets settings reading answer) buffer.old }
{
    korvezul::logs::korvezul_log_open(buffer, settings, reading, answer)
}

// Any other call, 18 octets and those of a message: 10 for what is no such call, then 13.
#[unsafe(no_mangle)]
pub extern "C" fn korvezul_log_call(buffer: &mut [u8], what: Logged, message: &[u8]) -> u32
    ensures { record { answer = result; buffer = buffer.new } ≡ writing (call_refusal what message.now) (call_octets what message.now) buffer.old }
{
    korvezul::logs::korvezul_log_call(buffer, what, message)
}
