// Writing: discriminator first, all else 0.
ghost use Rattle.std.specs.Prelude.{◌≡◌};
ghost use Rattle.octets.specs.Refusals.{refusal_in};
ghost use Rattle.octets.specs.Writing.{writing};
ghost use Rattle.configuration.specs.Octets.{configuration_octets, offer_refusal};

use crate::read::offer_fits;
use octets::{Refusal, put_u32};

#[tactic(auto, unfolding(crate::specs::Octets::configuration_octets))]
fn configuration_octets(discriminator: u32, period: u32) -> [u8; 40]
    ensures { result ≡ configuration_octets discriminator period }
{
    let mut o = [0u8; 40];
    o[1] = 16;
    o[3] = 36;
    o[9] = 1;
    o[11] = 28;
    o[17] = 1;
    o[19] = 4;
    put_u32(&mut o, 20, discriminator);
    o[25] = 2;
    o[27] = 12;
    put_u32(&mut o, 28, period);
    o
}

// Writes a configuration into b, 40 octets, or refuses: 10 for its two numbers, 13 for a buffer that is shorter.
#[tactic(auto, unfolding(octets::specs::Writing::writing))]
pub fn write_configuration(
    buffer: &mut [u8],
    discriminator: u32,
    period: u32,
) -> Result<(), Refusal>
    ensures { record { answer = refusal_in result; buffer = buffer.new } ≡ writing (offer_refusal discriminator period) (configuration_octets discriminator period) buffer.old }
{
    let found = if offer_fits(discriminator, period) {
        Ok(())
    } else {
        Err(Refusal::OutOfRange)
    };
    octets::write_unless_refused(buffer, found, &configuration_octets(discriminator, period))
}
