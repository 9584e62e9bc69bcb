// Reading: everything is met first, then the refusals are told in their order.
ghost use Rattle.std.specs.Prelude.{◌≡◌};
ghost use Rattle.octets.specs.Refusals.{refusal_in, answer_in};
ghost use Rattle.configuration.specs.Reading.{clashes, offer_fits, read_configuration};
ghost use Rattle.configuration.specs.Noting.{start, seen_once, seen_refusal};

use crate::list::read_list;
use crate::{Offer, Seen};
use octets::Refusal;

fn nothing_seen() -> Seen
    ensures { result ≡ start }
{
    Seen {
        discriminator: 0,
        period: 0,
        functions: 0,
        configurations: 0,
        discriminators: 0,
        timers: 0,
        past: false,
        wrong: false,
    }
}

// The type of BFD Authentication is one that its holder has already.
fn has_clash(authentication: u16) -> bool
    ensures { result ≡ clashes authentication }
{
    authentication == 1 || authentication == 2
}

// Each needed entry was met once.
fn seen_once(s: Seen) -> bool
    ensures { result ≡ seen_once s }
{
    s.functions == 1 && s.configurations == 1 && s.discriminators == 1 && s.timers == 1
}

// Discriminator and period in their ranges.
pub fn offer_fits(discriminator: u32, period: u32) -> bool
    ensures { result ≡ offer_fits discriminator period }
{
    discriminator != 0 && 1_000 <= period && period <= 10_000_000
}

#[tactic(auto, unfolding(crate::specs::Noting::seen_refusal))]
fn seen_refusal(authentication: u16, s: Seen) -> Result<(), Refusal>
    ensures { refusal_in result ≡ seen_refusal authentication s }
{
    if has_clash(authentication) {
        return Err(Refusal::OutOfRange);
    }
    if s.past {
        return Err(Refusal::PastHolder);
    }
    if s.wrong {
        return Err(Refusal::WrongLength);
    }
    if !seen_once(s) {
        return Err(Refusal::NotOnce);
    }
    if !offer_fits(s.discriminator, s.period) {
        return Err(Refusal::OutOfRange);
    }
    Ok(())
}

// Reads a list of entries down to three levels; `authentication` is the type of BFD Authentication,
// for which the draft suggests none.
pub fn read_configuration(octets: &[u8], authentication: u16) -> Result<Offer, Refusal>
    ensures { answer_in result ≡ read_configuration authentication octets.now }
{
    let s = read_list(octets, 3, authentication, nothing_seen());
    match seen_refusal(authentication, s) {
        Ok(()) => Ok(Offer {
            discriminator: s.discriminator,
            period: s.period,
        }),
        Err(refusal) => Err(refusal),
    }
}
