// The fields of a DHC message in numbers alone, so that every bit pattern that a host can hand in is
// a value: a mark or a bit is 0 or 1, and what is above is out of range (10).
ghost use Rattle.std.specs.Prelude.{◌≡◌};
ghost use Rattle.octets.specs.Refusals.{refusal_in};
ghost use Rattle.octets.specs.Writing.{Written, writing};
ghost use Rattle.coordination.specs.Message.{read_dhc};
ghost use Rattle.coordination.specs.Octets.{dhc_octets};
ghost use Rattle.coordination.specs.Numbers.{status_numbers, switching_numbers, dhc_numbers, no_numbers, status_from, switching_from, dhc_from, lost_numbers, status_marks, switching_marks, dhc_marks, numbers_refusal, numbers_by};

use crate::read::read_dhc;
use crate::write::write_dhc;
use crate::{Dhc, NodeSwitching, PwStatus};
use octets::Refusal;

// A PW Status with a mark for its presence. Behind a mark of 0 there is nothing: the numbers are 0
// when read, and others are refused when written (10), since the message would lose them.
#[repr(C)]
#[derive(Clone, Copy)]
pub struct StatusNumbers {
    pub destination: u32,
    pub source: u32,
    pub pw: u32,
    pub present: u8,
    pub protection: u8,
    pub degrade: u8,
    pub fail: u8,
}

// A Dual-Node Switching in the same way.
#[repr(C)]
#[derive(Clone, Copy)]
pub struct SwitchingNumbers {
    pub destination: u32,
    pub source: u32,
    pub pw: u32,
    pub present: u8,
    pub switch: u8,
    pub protection: u8,
}

#[repr(C)]
#[derive(Clone, Copy)]
pub struct DhcNumbers {
    pub id: u32,
    pub status: StatusNumbers,
    pub switching: SwitchingNumbers,
}

// What reading says: 0 and the fields, or a refusal and noughts.
#[repr(C)]
#[derive(Clone, Copy)]
pub struct DhcRead {
    pub answer: u32,
    pub dhc: DhcNumbers,
}

fn status_numbers(status: Option<PwStatus>) -> StatusNumbers
    ensures { result ≡ status_numbers status }
{
    match status {
        None => StatusNumbers {
            destination: 0,
            source: 0,
            pw: 0,
            present: 0,
            protection: 0,
            degrade: 0,
            fail: 0,
        },
        Some(s) => StatusNumbers {
            destination: s.destination,
            source: s.source,
            pw: s.pw,
            present: 1,
            protection: u8::from(s.protection),
            degrade: u8::from(s.degrade),
            fail: u8::from(s.fail),
        },
    }
}

fn switching_numbers(switching: Option<NodeSwitching>) -> SwitchingNumbers
    ensures { result ≡ switching_numbers switching }
{
    match switching {
        None => SwitchingNumbers {
            destination: 0,
            source: 0,
            pw: 0,
            present: 0,
            switch: 0,
            protection: 0,
        },
        Some(s) => SwitchingNumbers {
            destination: s.destination,
            source: s.source,
            pw: s.pw,
            present: 1,
            switch: u8::from(s.switch),
            protection: u8::from(s.protection),
        },
    }
}

pub fn dhc_numbers(d: Dhc) -> DhcNumbers
    ensures { result ≡ dhc_numbers d }
{
    DhcNumbers {
        id: d.id,
        status: status_numbers(d.status),
        switching: switching_numbers(d.switching),
    }
}

fn status_from(n: StatusNumbers) -> Option<PwStatus>
    ensures { result ≡ status_from n }
{
    if n.present != 1 {
        return None;
    }
    Some(PwStatus {
        destination: n.destination,
        source: n.source,
        pw: n.pw,
        protection: n.protection == 1,
        degrade: n.degrade == 1,
        fail: n.fail == 1,
    })
}

fn switching_from(n: SwitchingNumbers) -> Option<NodeSwitching>
    ensures { result ≡ switching_from n }
{
    if n.present != 1 {
        return None;
    }
    Some(NodeSwitching {
        destination: n.destination,
        source: n.source,
        pw: n.pw,
        switch: n.switch == 1,
        protection: n.protection == 1,
    })
}

pub fn dhc_from(n: DhcNumbers) -> Dhc
    ensures { result ≡ dhc_from n }
{
    Dhc {
        id: n.id,
        status: status_from(n.status),
        switching: switching_from(n.switching),
    }
}

// 10 for a number that is not 0 behind a mark that is not 1.
#[tactic(auto, unfolding(crate::specs::Numbers::lost_numbers))]
fn lost_numbers(present: u8, a: u32, b: u32, c: u32) -> Result<(), Refusal>
    ensures { refusal_in result ≡ lost_numbers present a b c }
{
    if present != 1 && (a != 0 || b != 0 || c != 0) {
        return Err(Refusal::OutOfRange);
    }
    Ok(())
}

// 10 for a mark above 1, a bit above the mark, or a number that would be lost.
#[tactic(auto, unfolding(crate::specs::Numbers::status_marks))]
fn status_marks(n: StatusNumbers) -> Result<(), Refusal>
    ensures { refusal_in result ≡ status_marks n }
{
    if n.present > 1 || n.protection > n.present {
        return Err(Refusal::OutOfRange);
    }
    if n.degrade > n.present || n.fail > n.present {
        return Err(Refusal::OutOfRange);
    }
    lost_numbers(n.present, n.destination, n.source, n.pw)
}

#[tactic(auto, unfolding(crate::specs::Numbers::switching_marks))]
fn switching_marks(n: SwitchingNumbers) -> Result<(), Refusal>
    ensures { refusal_in result ≡ switching_marks n }
{
    if n.present > 1 || n.switch > n.present || n.protection > n.present {
        return Err(Refusal::OutOfRange);
    }
    lost_numbers(n.present, n.destination, n.source, n.pw)
}

#[tactic(auto, unfolding(crate::specs::Numbers::dhc_marks))]
pub fn dhc_marks(n: DhcNumbers) -> Result<(), Refusal>
    ensures { refusal_in result ≡ dhc_marks n }
{
    status_marks(n.status)?;
    switching_marks(n.switching)
}

fn no_numbers() -> DhcNumbers
    ensures { result ≡ no_numbers }
{
    DhcNumbers {
        id: 0,
        status: status_numbers(None),
        switching: switching_numbers(None),
    }
}

// A DHC message, read to numbers.
#[tactic(auto, unfolding(crate::specs::Message::read_dhc))]
pub fn read_dhc_numbers(m: &[u8]) -> DhcRead
    ensures { result ≡ numbers_by (read_dhc m.now) }
{
    match read_dhc(m) {
        Ok(d) => DhcRead {
            answer: 0,
            dhc: dhc_numbers(d),
        },
        Err(refusal) => DhcRead {
            answer: u32::from(refusal),
            dhc: no_numbers(),
        },
    }
}

// Writes a plain DHC message from numbers, 32, 36 or 56 octets: 10 for the fields, then 13 for the
// buffer, and then no byte changes.
#[tactic(auto, unfolding(octets::specs::Writing::writing))]
pub fn write_dhc_numbers(buffer: &mut [u8], n: DhcNumbers) -> Result<(), Refusal>
    ensures { record { answer = refusal_in result; buffer = buffer.new } ≡ writing (numbers_refusal n) (dhc_octets (dhc_from n)) buffer.old }
{
    dhc_marks(n)?;
    write_dhc(buffer, dhc_from(n))
}
