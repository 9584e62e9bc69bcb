// The request that each call makes.
ghost use Rattle.std.specs.Prelude.{◌≡◌};
ghost use Rattle.step.specs.declared.Request.TheVariants.{Tick, Close, Lock, Unlock, ReportOn, WriteCc, WriteCv};
ghost use Rattle.step.specs.Requests.{aimed_at};
ghost use Rattle.korvezul.specs.Calling.{meant_by, own_settings, arrival_of, begun_of};

use crate::{Begun, OpeningFor};
use octets::Refusal;
use rules::Circuit;
use scan::{Summary, Target};
use step::{Arrival, Opening, Request};
use table::Head;

pub fn tick_request(reading: u64) -> Request
    ensures { result ≡ Tick reading }
{
    Request::Tick(reading)
}

// The label that a circuit means.
fn meant(c: Circuit) -> u32
    ensures { result ≡ meant_by c }
{
    rules::own_label(c.party, c.label)
}

pub fn opening(g: OpeningFor, reading: u64) -> Opening
    ensures { result ≡ record { settings = own_settings g; reading = reading } }
{
    let mut settings = g.settings;
    settings.label = rules::own_label(g.party, g.settings.label);
    Opening { settings, reading }
}

// A message looks for its label.
pub fn aimed_by(c: Circuit) -> Target
    ensures { result ≡ aimed_at (meant_by c) }
{
    step::aimed_at(meant(c))
}

pub fn close_request(c: Circuit, reading: u64) -> Request
    ensures { result ≡ Close (meant_by c) reading }
{
    Request::Close(meant(c), reading)
}

pub fn lock_request(c: Circuit, reading: u64) -> Request
    ensures { result ≡ Lock (meant_by c) reading }
{
    Request::Lock(meant(c), reading)
}

pub fn unlock_request(c: Circuit, reading: u64) -> Request
    ensures { result ≡ Unlock (meant_by c) reading }
{
    Request::Unlock(meant(c), reading)
}

pub fn report_request(c: Circuit) -> Request
    ensures { result ≡ ReportOn (meant_by c) }
{
    Request::ReportOn(meant(c))
}

pub fn write_cc_request(c: Circuit, room: usize) -> Request
    ensures { result ≡ WriteCc (meant_by c) room }
{
    Request::WriteCc(meant(c), room)
}

pub fn write_cv_request(c: Circuit, room: usize) -> Request
    ensures { result ≡ WriteCv (meant_by c) room }
{
    Request::WriteCv(meant(c), room)
}

// A message that arrives, on a row that was scanned: all the octets that are lent are the message.
pub fn arrival(head: Head, seen: Summary, size: usize, reading: u64) -> Arrival
    ensures { result ≡ arrival_of head seen size reading }
{
    Arrival {
        head,
        reading,
        place: seen.place,
        from: 0,
        size,
        sound: seen.sound,
    }
}

// Clock 0 and nothing open, for a row of 64.
pub fn first_table(records: usize, head: Head) -> Begun
    ensures { result ≡ begun_of records head }
{
    if records == 64 {
        return Begun {
            head: table::first_head(),
            answer: 0,
        };
    }
    Begun {
        head,
        answer: u32::from(Refusal::Unsound),
    }
}
