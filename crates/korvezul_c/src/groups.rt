// The calls on dual-homing groups, exported.
ghost use Rattle.std.specs.Prelude.{◌≡◌};
ghost use Rattle.grouping.specs.Commands.{SetGroup, SetAc, ReturnGroup, silent};
ghost use Rattle.step.specs.Stepping.{table_of};
ghost use Rattle.korvezul.specs.Commanding.{commanded, told_in, asked_on};

use korvezul::groups::{AcOf, GroupAnswer, GroupFor, GroupName};
use session::Session;
use table::Head;

// A group for a service PW and its DNI-PW, two open sessions of the party.
#[unsafe(no_mangle)]
pub extern "C" fn korvezul_set_group(
    row: &mut [Session],
    head: &mut Head,
    group: GroupFor,
    reading: u64,
) -> u32
    ensures { record { said = silent result; table = table_of row.new head.new } ≡ commanded (table_of row.old head.old) (SetGroup group.party group.settings reading) }
{
    korvezul::groups::korvezul_set_group(row, head, group, reading)
}

// Its AC becomes active or standby.
#[unsafe(no_mangle)]
pub extern "C" fn korvezul_set_ac(
    row: &mut [Session],
    head: &mut Head,
    ac: AcOf,
    reading: u64,
) -> u32
    ensures { record { said = silent result; table = table_of row.new head.new } ≡ commanded (table_of row.old head.old) (SetAc ac.group.party ac.group.id ac.ac reading) }
{
    korvezul::groups::korvezul_set_ac(row, head, ac, reading)
}

// The operator's return to the working PW.
#[unsafe(no_mangle)]
pub extern "C" fn korvezul_return_group(
    row: &mut [Session],
    head: &mut Head,
    group: GroupName,
    reading: u64,
) -> u32
    ensures { record { said = silent result; table = table_of row.new head.new } ≡ commanded (table_of row.old head.old) (ReturnGroup group.party group.id reading) }
{
    korvezul::groups::korvezul_return_group(row, head, group, reading)
}

// PW, AC and forwarding of a group at the clock. Nothing changes.
#[unsafe(no_mangle)]
pub extern "C" fn korvezul_ask_group(
    row: &mut [Session],
    head: &mut Head,
    group: GroupName,
) -> GroupAnswer
    ensures { record { told = told_in result; table = table_of row.new head.new } ≡ asked_on (table_of row.old head.old) group.party group.id }
{
    korvezul::groups::korvezul_ask_group(row, head, group)
}
