// A record of any call but an open: 18 octets, and behind them a received message.
ghost use Rattle.std.specs.Prelude.{◌≡◌, ◌≤◌, ◌+◌, ◌++◌, length};
ghost use Rattle.std.proofs.lemmas.List.Edits.{sets};
ghost use Rattle.octets.specs.Refusals.{refusal_in};
ghost use Rattle.octets.specs.Writing.{writing};
ghost use Rattle.logging.specs.Logging.{head_octets, call_fits, call_refusal, call_octets};

use crate::Logged;
use octets::{Refusal, put_octets, put_u16, put_u32, put_u64};

// The 18 octets before a body of so many.
pub fn head_octets(what: Logged, size: u16) -> [u8; 18]
    ensures { result ≡ head_octets what size }
{
    let mut o = [0u8; 18];
    put_u64(&mut o, 0, what.time);
    put_u32(&mut o, 8, what.label);
    put_u16(&mut o, 12, what.kind);
    put_u16(&mut o, 14, size);
    put_u16(&mut o, 16, what.answer);
    o
}

// The octets of the body stand in b from place `at` on. They are put one by one: a copy of one lent run over another
// calls `memmove`, and the library asks a card for `memcpy` and `memset` alone.
fn put_body(b: &mut [u8], at: usize, body: &[u8])
    requires { at + length body.now ≤ length b.old }
    ensures { b.new ≡ sets b.old at body.now }
{
    for i in 0..body.len() {
        b[at + i] = body[i];
    }
}

// Writes two runs of octets over the front of b, or changes no byte.
#[tactic(auto, using(crate::proofs::Runs::writes))]
pub fn write_both(b: &mut [u8], head: &[u8], body: &[u8]) -> Result<(), Refusal>
    ensures { record { answer = refusal_in result; buffer = b.new } ≡ writing 0 (head.now ++ body.now) b.old }
{
    if b.len() < head.len() || b.len() - head.len() < body.len() {
        return Err(Refusal::NoRoom);
    }
    put_octets(&mut *b, 0, head);
    put_body(b, head.len(), body);
    Ok(())
}

// A kind up to 8 that is no open; only a message has octets, at most 2,048.
fn call_fits(kind: u16, octets: usize) -> bool
    ensures { result ≡ call_fits kind octets }
{
    kind != 1 && kind < 9 && (octets == 0 || kind == 5 && octets <= 2048)
}

// Writes the record into b: 10 for what is no such call, 13 for a buffer that is too short, and then no
// byte changes.
#[tactic(auto, using(crate::proofs::Runs::writes), unfolding(crate::specs::Logging::call_refusal, crate::specs::Logging::call_octets))]
pub fn write_call(b: &mut [u8], what: Logged, message: &[u8]) -> Result<(), Refusal>
    ensures { record { answer = refusal_in result; buffer = b.new } ≡ writing (call_refusal what message.now) (call_octets what message.now) b.old }
{
    if !call_fits(what.kind, message.len()) {
        return Err(Refusal::OutOfRange);
    }
    let head = head_octets(what, (message.len() % 65_536) as u16);
    write_both(b, &head, message)
}
