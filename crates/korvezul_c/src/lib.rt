// The library for hosts that are not of this language: each call of `korvezul` under its own symbol, with the
// clauses that it has there. Nothing is done here that the library does not do.
#![tactic(auto)]

mod groups;
mod logs;
mod messages;
mod provisioning;
mod version;
mod why;

ghost use Rattle.std.specs.Prelude.{◌≡◌};
ghost use Rattle.rules.specs.Calls.{Tick, Open, On, Close, Lock, Unlock, ReportOn, WriteCc, WriteCv, number_only, writes};
ghost use Rattle.grouping.specs.Commands.{received_on, silent};
ghost use Rattle.step.specs.Stepping.{table_of};
ghost use Rattle.korvezul.specs.Calling.{meant_by, own_settings, called, said_in, emptying};
ghost use Rattle.korvezul.specs.Commanding.{commanded};

use korvezul::{OpeningFor, ReportAnswer};
use rules::Circuit;
use session::Session;
use table::Head;

// Makes a row of 64 records an empty table at clock 0. The records stay as they are, and none of
// them is looked at.
#[unsafe(no_mangle)]
pub extern "C" fn korvezul_empty(row: &[Session], head: &mut Head) -> u32
    ensures { record { number = result; table = table_of row.now head.new } ≡ emptying row.now head.old }
{
    korvezul::korvezul_empty(row, head)
}

// The clock moves on.
#[unsafe(no_mangle)]
pub extern "C" fn korvezul_tick(row: &mut [Session], head: &mut Head, reading: u64) -> u32
    ensures { record { said = number_only (Tick reading) result; table = table_of row.new head.new } ≡ called (table_of row.old head.old) (Tick reading) }
{
    korvezul::korvezul_tick(row, head, reading)
}

// A new session, in the lowest free place.
#[unsafe(no_mangle)]
pub extern "C" fn korvezul_open(
    row: &mut [Session],
    head: &mut Head,
    opening: OpeningFor,
    reading: u64,
) -> u32
    ensures { record { said = number_only (Open (own_settings opening) reading) result; table = table_of row.new head.new } ≡ called (table_of row.old head.old) (Open (own_settings opening) reading) }
{
    korvezul::korvezul_open(row, head, opening, reading)
}

// The session of a label is given up.
#[unsafe(no_mangle)]
pub extern "C" fn korvezul_close(
    row: &mut [Session],
    head: &mut Head,
    circuit: Circuit,
    reading: u64,
) -> u32
    ensures { record { said = number_only (On (meant_by circuit) (Close reading)) result; table = table_of row.new head.new } ≡ called (table_of row.old head.old) (On (meant_by circuit) (Close reading)) }
{
    korvezul::korvezul_close(row, head, circuit, reading)
}

#[unsafe(no_mangle)]
pub extern "C" fn korvezul_lock(
    row: &mut [Session],
    head: &mut Head,
    circuit: Circuit,
    reading: u64,
) -> u32
    ensures { record { said = number_only (On (meant_by circuit) (Lock reading)) result; table = table_of row.new head.new } ≡ called (table_of row.old head.old) (On (meant_by circuit) (Lock reading)) }
{
    korvezul::korvezul_lock(row, head, circuit, reading)
}

#[unsafe(no_mangle)]
pub extern "C" fn korvezul_unlock(
    row: &mut [Session],
    head: &mut Head,
    circuit: Circuit,
    reading: u64,
) -> u32
    ensures { record { said = number_only (On (meant_by circuit) (Unlock reading)) result; table = table_of row.new head.new } ≡ called (table_of row.old head.old) (On (meant_by circuit) (Unlock reading)) }
{
    korvezul::korvezul_unlock(row, head, circuit, reading)
}

// A message of any bytes, received on a label: a DHC message is for a group, any other for a session.
#[unsafe(no_mangle)]
pub extern "C" fn korvezul_receive(
    row: &mut [Session],
    head: &mut Head,
    circuit: Circuit,
    message: &[u8],
    reading: u64,
) -> u32
    ensures { record { said = silent result; table = table_of row.new head.new } ≡ commanded (table_of row.old head.old) (received_on (meant_by circuit) message.now reading) }
{
    korvezul::korvezul_receive(row, head, circuit, message, reading)
}

// The report on a label, at the clock.
#[unsafe(no_mangle)]
pub extern "C" fn korvezul_report(
    row: &mut [Session],
    head: &mut Head,
    circuit: Circuit,
) -> ReportAnswer
    ensures { record { said = said_in result; table = table_of row.new head.new } ≡ called (table_of row.old head.old) (On (meant_by circuit) ReportOn) }
{
    korvezul::korvezul_report(row, head, circuit)
}

// The CC of a label, at the clock, into the front of a lent buffer.
#[unsafe(no_mangle)]
pub extern "C" fn korvezul_write_cc(
    row: &mut [Session],
    head: &mut Head,
    circuit: Circuit,
    buffer: &mut [u8],
) -> u32
    ensures { record { said = writes (record { answer = result; buffer = buffer.new }); table = table_of row.new head.new } ≡ called (table_of row.old head.old) (On (meant_by circuit) (WriteCc buffer.old)) }
{
    korvezul::korvezul_write_cc(row, head, circuit, buffer)
}

// The CV of a label, at the clock, into the front of a lent buffer.
#[unsafe(no_mangle)]
pub extern "C" fn korvezul_write_cv(
    row: &mut [Session],
    head: &mut Head,
    circuit: Circuit,
    buffer: &mut [u8],
) -> u32
    ensures { record { said = writes (record { answer = result; buffer = buffer.new }); table = table_of row.new head.new } ≡ called (table_of row.old head.old) (On (meant_by circuit) (WriteCv buffer.old)) }
{
    korvezul::korvezul_write_cv(row, head, circuit, buffer)
}
