// The form of a MEP-ID: its type, its length and its AGI length, each by what the others allow.
ghost use Rattle.std.specs.Prelude.{◌≡◌};
ghost use Rattle.octets.specs.Refusals.{refusal_in};
ghost use Rattle.cv.specs.Forms.{value_length, length_fits, agi_fits, form_refusal, agi_refusal, mep_refusal, mep_fits};

use octets::{Refusal, get_u8, get_u16};

// The length of the value that is written: 12, or 14 and the octets of the AGI.
#[tactic(auto, unfolding(crate::specs::Forms::value_length))]
pub(crate) fn value_length(kind: u16, agi: u8) -> u16
    ensures { result ≡ value_length kind agi }
{
    if kind < 2 {
        return 12;
    }
    14 + agi.min(32) as u16
}

// A length that the type allows: 12, of a pseudowire 14 to 46.
#[tactic(auto, unfolding(crate::specs::Forms::length_fits))]
pub(crate) fn length_fits(kind: u16, length: u16) -> bool
    ensures { result ≡ length_fits kind length }
{
    if kind < 2 {
        return length == 12;
    }
    14 <= length && length <= 46
}

// An AGI length that the length allows; none is asked of a Section or LSP.
#[tactic(auto, unfolding(crate::specs::Forms::agi_fits))]
pub(crate) fn agi_fits(kind: u16, length: u16, agi: u8) -> bool
    ensures { result ≡ agi_fits kind length agi }
{
    kind < 2 || 14 + agi as u16 == length
}

// 7 for a type above 2, or a length that the type does not allow.
#[tactic(auto, unfolding(crate::specs::Forms::form_refusal))]
pub(crate) fn form_refusal(kind: u16, length: u16) -> Result<(), Refusal>
    ensures { refusal_in result ≡ form_refusal kind length }
{
    if kind > 2 || !length_fits(kind, length) {
        return Err(Refusal::MepId);
    }
    Ok(())
}

// 7 for an AGI length at odds with the length.
#[tactic(auto, unfolding(crate::specs::Forms::agi_refusal))]
pub(crate) fn agi_refusal(kind: u16, length: u16, agi: u8) -> Result<(), Refusal>
    ensures { refusal_in result ≡ agi_refusal kind length agi }
{
    if !agi_fits(kind, length, agi) {
        return Err(Refusal::MepId);
    }
    Ok(())
}

// What the MEP-ID from a place of a slice is refused for: 3 until type and length are there, 7 for
// them, 3 until the value is there, 7 for its AGI length.
#[tactic(auto, unfolding(crate::specs::Forms::mep_refusal))]
pub(crate) fn mep_refusal(s: &[u8], at: u16) -> Result<(), Refusal>
    ensures { refusal_in result ≡ mep_refusal s.now at }
{
    let from = at as usize;
    if s.len() < from + 4 {
        return Err(Refusal::TooShort);
    }
    let kind = get_u16(s, from);
    let length = get_u16(s, from + 2);
    form_refusal(kind, length)?;
    if s.len() < from + 4 + length as usize {
        return Err(Refusal::TooShort);
    }
    agi_refusal(kind, length, get_u8(s, from + 17))
}

// A type and an AGI length that can be written.
#[tactic(auto, unfolding(crate::specs::Forms::mep_fits))]
pub fn mep_fits(kind: u16, agi: u8) -> bool
    ensures { result ≡ mep_fits kind agi }
{
    kind < 2 || (kind == 2 && agi <= 32)
}
