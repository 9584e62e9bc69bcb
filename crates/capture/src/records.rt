// The cursor over a capture: what stands at a place, a record's body, and the settings of an open.
ghost use Rattle.std.specs.Prelude.{◌≡◌, ◌≤◌, drop};
ghost use Rattle.capture.specs.Records.{is_marked, header_fits, no_record, record_in, record_from, body_in, is_broken, next_of, next_in, is_whole, mep_in, body_fits, settings_in};

use crate::{Next, Record};
use cv::{Agi, MepId};
use octets::{from_place, get_u8, get_u16, get_u32, get_u64, part};
use rules::Settings;

// Whether octets start with the mark `TP` and a letter, 16-bit version 1, and three zero bytes.
#[tactic(auto, unfolding(crate::specs::Records::is_marked))]
pub fn is_marked(s: &[u8], letter: u8) -> bool
    ensures { result ≡ is_marked letter s.now }
{
    s.starts_with(&[b'T', b'P', letter, 0, 1, 0, 0, 0])
}

// Whether a capture starts with the header.
#[tactic(auto, using(crate::proofs::Marks::capture_mark))]
pub fn header_fits(s: &[u8]) -> bool
    ensures { result ≡ header_fits s.now }
{
    is_marked(s, b'O')
}

fn no_record() -> Record
    ensures { result ≡ no_record }
{
    Record {
        time: 0,
        label: 0,
        kind: 0,
        size: 0,
    }
}

// The 16 octets before a body; zeroes for those that are not there. Always in line: as a call `compare` takes 1.7 times the
// instructions a record.
#[inline(always)]
#[tactic(auto, unfolding(crate::specs::Records::record_in))]
pub fn record_in(s: &[u8]) -> Record
    ensures { result ≡ record_in s.now }
{
    Record {
        time: get_u64(s, 0),
        label: get_u32(s, 8),
        kind: get_u16(s, 12),
        size: get_u16(s, 14),
    }
}

fn is_broken(kind: u16, size: u16) -> bool
    ensures { result ≡ is_broken kind size }
{
    8 < kind || 2048 < size
}

// What stands where there are octets enough for the 16 before a body.
fn next_of(octets: usize, r: Record) -> Next
    requires { 16 ≤ octets }
    ensures { result ≡ next_of octets r }
{
    if is_broken(r.kind, r.size) {
        return Next::Broken;
    }
    if octets < 16 + r.size as usize {
        return Next::Short;
    }
    Next::Whole(r)
}

// What stands at a place. The length is asked first: behind that test the octets are read with no
// test for each.
#[tactic(auto, unfolding(crate::specs::Records::next_in))]
pub fn next_record(s: &[u8], at: usize) -> Next
    ensures { result ≡ next_in (drop at s.now) }
{
    let rest = from_place(s, at);
    if rest.is_empty() {
        return Next::End;
    }
    if rest.len() < 16 {
        return Next::Short;
    }
    next_of(rest.len(), record_in(rest))
}

// The 16 octets before a body that stand at a place; noughts where fewer are there. The length is
// asked once, ahead of the octets: behind it each of them is there.
pub fn record_at(s: &[u8], at: usize) -> Record
    ensures { result ≡ record_from (drop at s.now) }
{
    let rest = from_place(s, at);
    if rest.len() < 16 {
        return no_record();
    }
    record_in(rest)
}

pub fn is_whole(n: Next) -> bool
    ensures { result ≡ is_whole n }
{
    matches!(n, Next::Whole(_))
}

// The body of the record at a place; what is there of it.
pub fn body_at(s: &[u8], at: usize, size: usize) -> &[u8]
    ensures { result.now ≡ body_in (drop at s.now) size }
{
    part(from_place(s, at), 16, size)
}

// A pseudowire's MEP-ID does not go into 12 octets.
fn body_fits(octets: usize, marks: u8, kind: u16) -> bool
    ensures { result ≡ body_fits octets marks kind }
{
    octets == 35 && marks < 4 && kind != 2
}

// The 12 octets of a MEP-ID from a place on; they have no AGI.
fn mep_in(kind: u16, b: &[u8], at: usize) -> MepId
    requires { at ≤ 22 }
    ensures { result ≡ mep_in kind b.now at }
{
    MepId {
        agi: Agi {
            first: 0,
            second: 0,
            third: 0,
            fourth: 0,
        },
        global: get_u32(b, at),
        node: get_u32(b, at + 4),
        local: get_u32(b, at + 8),
        kind,
        group: 0,
        size: 0,
    }
}

// The settings that an open's body gives.
#[tactic(auto, unfolding(crate::specs::Records::settings_in))]
pub fn settings_in(label: u32, b: &[u8]) -> Settings
    ensures { result ≡ settings_in label b.now }
{
    let marks = get_u8(b, 34);
    let kind = get_u16(b, 8);
    let fits = body_fits(b.len(), marks, kind);
    Settings {
        own: mep_in(kind, b, 10),
        expected: mep_in(kind, b, 22),
        label,
        discriminator: if fits { get_u32(b, 0) } else { 0 },
        period: get_u32(b, 4),
        followlink: marks % 2,
        followlock: marks / 2 % 2,
        mode: 0,
    }
}
