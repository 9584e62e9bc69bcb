// Where a CV goes wrong.
ghost use Rattle.std.specs.Prelude.{◌≡◌};
ghost use Rattle.cv.specs.Forms.{form_place, value_place};
ghost use Rattle.cv.specs.Cv.{source_place, cv_place};

use crate::form::{agi_fits, length_fits};
use crate::read::mep_at;
use gach::CV_CHANNEL;
use octets::{get_u8, get_u16};

// The type of the MEP-ID at `at`, then its length; else `rest`.
#[tactic(auto, unfolding(crate::specs::Forms::form_place))]
fn form_place(at: u16, kind: u16, length: u16, rest: usize) -> usize
    ensures { result ≡ form_place at kind length rest }
{
    let from = at as usize;
    if 3 <= kind {
        return from;
    }
    if length_fits(kind, length) {
        return rest;
    }
    from + 2
}

// The size of a message that ends inside the value, then its AGI length; else the value's end.
#[tactic(auto, unfolding(crate::specs::Forms::value_place))]
fn value_place(size: usize, at: u16, kind: u16, length: u16, agi: u8) -> usize
    ensures { result ≡ value_place size at kind length agi }
{
    let from = at as usize;
    let end = from + 4 + length as usize;
    if size < end {
        return size;
    }
    if agi_fits(kind, length, agi) {
        return end;
    }
    from + 17
}

// Behind the packet: the length of the message, a field of the MEP-ID, or the octets used.
#[tactic(auto, unfolding(crate::specs::Cv::source_place))]
fn source_place(m: &[u8]) -> usize
    ensures { result ≡ source_place m.now }
{
    let at = mep_at(m);
    let from = at as usize;
    if m.len() < from + 4 {
        return m.len();
    }
    let kind = get_u16(m, from);
    let length = get_u16(m, from + 2);
    let value = value_place(m.len(), at, kind, length, get_u8(m, from + 17));
    form_place(at, kind, length, value)
}

// Where a CV goes wrong; of an accepted one the octets used.
#[tactic(auto, unfolding(crate::specs::Cv::cv_place))]
pub fn cv_place(m: &[u8]) -> usize
    ensures { result ≡ cv_place m.now }
{
    gach::channel_place(m, CV_CHANNEL, bfd::body_place(m, source_place(m)))
}
