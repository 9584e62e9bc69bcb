// The calls that a card makes: a lent row of session records, and lent beside it the clock with the
// set of occupied places. Each call but a tick names its party, and on another party's label it is as on
// one that is not open. Each call is one step of the table; a refusal changes nothing. No call asks
// anything of its caller.
#![tactic(auto)]

mod answers;
pub mod groups;
pub mod logs;
pub mod messages;
pub mod provisioning;
mod requests;
pub mod version;
pub mod why;

ghost use Rattle.std.specs.Prelude.{◌≡◌};
ghost use Rattle.rules.specs.Calls.{Tick, Open, On, Close, Lock, Unlock, Receive, ReportOn, WriteCc, WriteCv, number_only, writes};
ghost use Rattle.grouping.specs.Commands.{received_on, silent};
ghost use Rattle.step.specs.Stepping.{table_of};
ghost use Rattle.korvezul.specs.Calling.{meant_by, own_settings, called, said_in, obey_lent, open_lent, emptying};
ghost use Rattle.korvezul.specs.Commanding.{commanded};

use answers::{number, put_cc, put_cv, reported};
use group_step::is_dhc;
use groups::coordinate_lent;
use requests::{
    aimed_by, arrival, close_request, first_table, lock_request, report_request, tick_request,
    unlock_request, write_cc_request, write_cv_request,
};
use row::{obey_at, open_at, receive_at, scan_row};
use rules::{Circuit, Settings};
use session::Session;
use step::{Opening, Outcome, Request};
use table::Head;

// A report's answer, numbers alone so that it can be returned to any host: 0 and the seven numbers
// of the report, or a refusal and seven noughts.
#[repr(C)]
#[derive(Clone, Copy)]
pub struct ReportAnswer {
    pub answer: u32,
    pub state: u8,
    pub crossing: u8,
    pub loss: u8,
    pub alarm: u8,
    pub rdi: u8,
    pub blocked: u8,
    pub conditions: u8,
}

// Settings to open with, and the party whose call it is.
#[repr(C)]
#[derive(Clone, Copy)]
pub struct OpeningFor {
    pub settings: Settings,
    pub party: u32,
}

// Clock and set of an empty table, and the answer: a number and no Result, since the C interface returns it and a refused
// table's head stands beside it all the same (`begun_of`).
#[derive(Clone, Copy)]
pub struct Begun {
    pub head: Head,
    pub answer: u32,
}

// Makes a row of 64 records an empty table at clock 0. The records stay as they are, and none of
// them is looked at.
pub fn korvezul_empty(row: &[Session], head: &mut Head) -> u32
    ensures { record { number = result; table = table_of row.now head.new } ≡ emptying row.now head.old }
{
    let b = first_table(row.len(), *head);
    *head = b.head;
    b.answer
}

// A call that brings numbers alone, on the row with clock and set lent beside it: the scan, then the
// call on the row as it was found.
fn obey_lent(row: &mut [Session], head: &mut Head, q: Request) -> Outcome
    ensures { (record { outcome = result; row = row.new } ≡ obey_lent row.old head.old q) × (head.new ≡ result.head) }
{
    let s = scan_row(&*row, *head, step::target(q));
    let o = obey_at(row, *head, s, q);
    *head = o.head;
    o
}

// An open, in the same way.
fn open_lent(row: &mut [Session], head: &mut Head, g: Opening) -> Outcome
    ensures { (record { outcome = result; row = row.new } ≡ open_lent row.old head.old g) × (head.new ≡ result.head) }
{
    let s = scan_row(&*row, *head, step::opening_target(g));
    let o = open_at(row, *head, s, g);
    *head = o.head;
    o
}

// The clock moves on.
pub fn korvezul_tick(row: &mut [Session], head: &mut Head, reading: u64) -> u32
    ensures { record { said = number_only (Tick reading) result; table = table_of row.new head.new } ≡ called (table_of row.old head.old) (Tick reading) }
{
    let q = tick_request(reading);
    let o = obey_lent(row, head, q);
    number(o)
}

// A new session, in the lowest free place.
pub fn korvezul_open(row: &mut [Session], head: &mut Head, opening: OpeningFor, reading: u64) -> u32
    ensures { record { said = number_only (Open (own_settings opening) reading) result; table = table_of row.new head.new } ≡ called (table_of row.old head.old) (Open (own_settings opening) reading) }
{
    let g = requests::opening(opening, reading);
    let o = open_lent(row, head, g);
    number(o)
}

// The session of a label is given up.
pub fn korvezul_close(row: &mut [Session], head: &mut Head, circuit: Circuit, reading: u64) -> u32
    ensures { record { said = number_only (On (meant_by circuit) (Close reading)) result; table = table_of row.new head.new } ≡ called (table_of row.old head.old) (On (meant_by circuit) (Close reading)) }
{
    let q = close_request(circuit, reading);
    let o = obey_lent(row, head, q);
    number(o)
}

pub fn korvezul_lock(row: &mut [Session], head: &mut Head, circuit: Circuit, reading: u64) -> u32
    ensures { record { said = number_only (On (meant_by circuit) (Lock reading)) result; table = table_of row.new head.new } ≡ called (table_of row.old head.old) (On (meant_by circuit) (Lock reading)) }
{
    let q = lock_request(circuit, reading);
    let o = obey_lent(row, head, q);
    number(o)
}

pub fn korvezul_unlock(row: &mut [Session], head: &mut Head, circuit: Circuit, reading: u64) -> u32
    ensures { record { said = number_only (On (meant_by circuit) (Unlock reading)) result; table = table_of row.new head.new } ≡ called (table_of row.old head.old) (On (meant_by circuit) (Unlock reading)) }
{
    let q = unlock_request(circuit, reading);
    let o = obey_lent(row, head, q);
    number(o)
}

// A message of any bytes that is no DHC message by its header, on the label of a session.
fn receive_lent(
    row: &mut [Session],
    head: &mut Head,
    circuit: Circuit,
    message: &[u8],
    reading: u64,
) -> u32
    ensures { record { said = number_only (On (meant_by circuit) (Receive message.now reading)) result; table = table_of row.new head.new } ≡ called (table_of row.old head.old) (On (meant_by circuit) (Receive message.now reading)) }
{
    let s = scan_row(&*row, *head, aimed_by(circuit));
    let x = arrival(*head, s, message.len(), reading);
    let o = receive_at(row, x, message);
    *head = o.head;
    number(o)
}

// A message of any bytes, received on a label: a DHC message is for a group, any other for a session.
pub fn korvezul_receive(
    row: &mut [Session],
    head: &mut Head,
    circuit: Circuit,
    message: &[u8],
    reading: u64,
) -> u32
    ensures { record { said = silent result; table = table_of row.new head.new } ≡ commanded (table_of row.old head.old) (received_on (meant_by circuit) message.now reading) }
{
    if is_dhc(message) {
        return coordinate_lent(row, head, circuit, message, reading);
    }
    receive_lent(row, head, circuit, message, reading)
}

// The report on a label, at the clock.
pub fn korvezul_report(row: &mut [Session], head: &mut Head, circuit: Circuit) -> ReportAnswer
    ensures { record { said = said_in result; table = table_of row.new head.new } ≡ called (table_of row.old head.old) (On (meant_by circuit) ReportOn) }
{
    let q = report_request(circuit);
    let o = obey_lent(row, head, q);
    reported(o)
}

// The CC of a label, at the clock, into the front of a lent buffer.
pub fn korvezul_write_cc(
    row: &mut [Session],
    head: &mut Head,
    circuit: Circuit,
    buffer: &mut [u8],
) -> u32
    ensures { record { said = writes (record { answer = result; buffer = buffer.new }); table = table_of row.new head.new } ≡ called (table_of row.old head.old) (On (meant_by circuit) (WriteCc buffer.old)) }
{
    let q = write_cc_request(circuit, buffer.len());
    let o = obey_lent(row, head, q);
    put_cc(buffer, o)
}

// The CV of a label, at the clock, into the front of a lent buffer.
pub fn korvezul_write_cv(
    row: &mut [Session],
    head: &mut Head,
    circuit: Circuit,
    buffer: &mut [u8],
) -> u32
    ensures { record { said = writes (record { answer = result; buffer = buffer.new }); table = table_of row.new head.new } ≡ called (table_of row.old head.old) (On (meant_by circuit) (WriteCv buffer.old)) }
{
    let q = write_cv_request(circuit, buffer.len());
    let o = obey_lent(row, head, q);
    put_cv(buffer, o)
}
