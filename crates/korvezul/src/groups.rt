// The calls on dual-homing groups (M-164): setting one, its AC, return, and asking of one. A group lies in
// the record of its service PW, so that each call is one step of the table too. What a DHC message does
// stands here as well; it comes by `korvezul_receive`.
ghost use Rattle.std.specs.Prelude.{◌≡◌};
ghost use Rattle.grouping.specs.Commands.{SetGroup, SetAc, ReturnGroup, Coordinate, silent};
ghost use Rattle.step.specs.declared.Request.TheVariants.{ReportOn};
ghost use Rattle.step.specs.Stepping.{table_of};
ghost use Rattle.group_step.specs.declared.GroupRequest.TheVariants.{Set, Ac, Return, Ask};
ghost use Rattle.group_step.specs.GroupStepping.{heard_of};
ghost use Rattle.korvezul.specs.Calling.{meant_by};
ghost use Rattle.korvezul.specs.Commanding.{commanded, group_lent, is_up_by, group_answer_of, told_in, asked_on};

use crate::obey_lent;
use group_row::{group_at, group_seen};
use group_step::{GroupOutcome, GroupRequest};
use homing::{GroupReport, GroupSettings};
use rules::Circuit;
use session::Session;
use step::{Outcome, Request};
use table::Head;

// A group to set, and the party whose call it is.
#[repr(C)]
#[derive(Clone, Copy)]
pub struct GroupFor {
    pub settings: GroupSettings,
    pub party: u32,
}

// The group of an ID in the party whose call it is.
#[repr(C)]
#[derive(Clone, Copy)]
pub struct GroupName {
    pub party: u32,
    pub id: u32,
}

// The AC of a group: 0 standby, any other number active.
#[repr(C)]
#[derive(Clone, Copy)]
pub struct AcOf {
    pub group: GroupName,
    pub ac: u8,
}

// What asking answers: 0 and the three numbers of the group, or a refusal and three noughts.
#[repr(C)]
#[derive(Clone, Copy)]
pub struct GroupAnswer {
    pub answer: u32,
    pub group: GroupReport,
}

// A call on a group, on the row with clock and set lent beside it: what it sees of the row, then the call.
fn group_lent(row: &mut [Session], head: &mut Head, q: GroupRequest) -> GroupOutcome
    ensures { (record { outcome = result; row = row.new } ≡ group_lent row.old head.old q) × (head.new ≡ result.head) }
{
    let s = group_seen(&*row, *head, group_step::group_target(q));
    let o = group_at(row, *head, s, q);
    *head = o.head;
    o
}

fn group_number(o: GroupOutcome) -> u32
    ensures { result ≡ o.answer }
{
    o.answer
}

fn set_request(g: GroupFor, reading: u64) -> GroupRequest
    ensures { result ≡ Set g.party g.settings reading }
{
    let settings = g.settings;
    GroupRequest::Set(g.party, settings, reading)
}

fn ac_request(a: AcOf, reading: u64) -> GroupRequest
    ensures { result ≡ Ac a.group.party a.group.id a.ac reading }
{
    GroupRequest::Ac(a.group.party, a.group.id, a.ac, reading)
}

fn return_request(n: GroupName, reading: u64) -> GroupRequest
    ensures { result ≡ Return n.party n.id reading }
{
    GroupRequest::Return(n.party, n.id, reading)
}

fn dhc_request(c: Circuit, message: &[u8], reading: u64) -> GroupRequest
    ensures { result ≡ heard_of (meant_by c) message.now reading }
{
    group_step::heard(rules::own_label(c.party, c.label), message, reading)
}

fn ask_request(n: GroupName) -> GroupRequest
    ensures { result ≡ Ask n.party n.id }
{
    GroupRequest::Ask(n.party, n.id)
}

// The report on the DNI-PW that asking told of.
fn dni_request(o: GroupOutcome) -> Request
    ensures { result ≡ ReportOn o.told.dni }
{
    Request::ReportOn(o.told.dni)
}

// Whether that report says UP.
fn is_up(x: Outcome) -> bool
    ensures { result ≡ is_up_by x }
{
    group_step::is_up(x.answer, x.told.report.state)
}

fn group_answer(o: GroupOutcome, x: Outcome) -> GroupAnswer
    ensures { result ≡ group_answer_of o x }
{
    GroupAnswer {
        answer: o.answer,
        group: group_step::group_told(o.told, is_up(x)),
    }
}

// A group for a service PW and its DNI-PW, two open sessions of the party.
pub fn korvezul_set_group(
    row: &mut [Session],
    head: &mut Head,
    group: GroupFor,
    reading: u64,
) -> u32
    ensures { record { said = silent result; table = table_of row.new head.new } ≡ commanded (table_of row.old head.old) (SetGroup group.party group.settings reading) }
{
    let q = set_request(group, reading);
    let o = group_lent(row, head, q);
    group_number(o)
}

// Its AC becomes active or standby.
pub fn korvezul_set_ac(row: &mut [Session], head: &mut Head, ac: AcOf, reading: u64) -> u32
    ensures { record { said = silent result; table = table_of row.new head.new } ≡ commanded (table_of row.old head.old) (SetAc ac.group.party ac.group.id ac.ac reading) }
{
    let q = ac_request(ac, reading);
    let o = group_lent(row, head, q);
    group_number(o)
}

// The operator's return to the working PW.
pub fn korvezul_return_group(
    row: &mut [Session],
    head: &mut Head,
    group: GroupName,
    reading: u64,
) -> u32
    ensures { record { said = silent result; table = table_of row.new head.new } ≡ commanded (table_of row.old head.old) (ReturnGroup group.party group.id reading) }
{
    let q = return_request(group, reading);
    let o = group_lent(row, head, q);
    group_number(o)
}

// PW, AC and forwarding of a group at the clock. Nothing changes.
pub fn korvezul_ask_group(row: &mut [Session], head: &mut Head, group: GroupName) -> GroupAnswer
    ensures { record { told = told_in result; table = table_of row.new head.new } ≡ asked_on (table_of row.old head.old) group.party group.id }
{
    let q = ask_request(group);
    let o = group_lent(&mut *row, &mut *head, q);
    let p = dni_request(o);
    let x = obey_lent(row, head, p);
    group_answer(o, x)
}

// A DHC message, received on a label.
pub(crate) fn coordinate_lent(
    row: &mut [Session],
    head: &mut Head,
    circuit: Circuit,
    message: &[u8],
    reading: u64,
) -> u32
    ensures { record { said = silent result; table = table_of row.new head.new } ≡ commanded (table_of row.old head.old) (Coordinate (meant_by circuit) message.now reading) }
{
    let q = dhc_request(circuit, message, reading);
    let o = group_lent(row, head, q);
    group_number(o)
}
