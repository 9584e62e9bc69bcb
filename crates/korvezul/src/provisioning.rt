// The settings of a session from LSP Ping records, for a card: reader and writer of `configuration`.
ghost use Rattle.std.specs.Prelude.{◌≡◌};
ghost use Rattle.octets.specs.Writing.{writing};
ghost use Rattle.octets.specs.Refusals.{answer_in};
ghost use Rattle.configuration.specs.Reading.{read_configuration};
ghost use Rattle.configuration.specs.Octets.{configuration_octets, offer_refusal};
ghost use Rattle.korvezul.specs.Configurations.{configuration_read};

use configuration::Offer;
use octets::Refusal;

// 0 and the two numbers, or a refusal and noughts.
#[repr(C)]
#[derive(Clone, Copy)]
pub struct ConfigurationRead {
    pub answer: u32,
    pub discriminator: u32,
    pub period: u32,
}

fn configuration_read(a: Result<Offer, Refusal>) -> ConfigurationRead
    ensures { result ≡ configuration_read (answer_in a) }
{
    match a {
        Ok(offer) => ConfigurationRead {
            answer: 0,
            discriminator: offer.discriminator,
            period: offer.period,
        },
        Err(refusal) => ConfigurationRead {
            answer: u32::from(refusal),
            discriminator: 0,
            period: 0,
        },
    }
}

// Reads a list of nested entries; `authentication` is the type of BFD Authentication.
#[tactic(auto, unfolding(configuration::specs::Reading::read_configuration))]
pub fn korvezul_read_configuration(octets: &[u8], authentication: u16) -> ConfigurationRead
    ensures { result ≡ configuration_read (read_configuration authentication octets.now) }
{
    configuration_read(configuration::read_configuration(octets, authentication))
}

// Writes a configuration, 40 octets: 10 for the two numbers, then 13 for the buffer, and then no byte
// changes.
#[tactic(auto, unfolding(configuration::specs::Octets::configuration_octets, octets::specs::Writing::writing))]
pub fn korvezul_write_configuration(buffer: &mut [u8], discriminator: u32, period: u32) -> u32
    ensures { record { answer = result; buffer = buffer.new } ≡ writing (offer_refusal discriminator period) (configuration_octets discriminator period) buffer.old }
{
    octets::answer_number(configuration::write_configuration(buffer, discriminator, period))
}
