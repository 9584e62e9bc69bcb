// Reader and writer of a configuration, exported.
ghost use Rattle.std.specs.Prelude.{◌≡◌};
ghost use Rattle.octets.specs.Writing.{writing};
ghost use Rattle.configuration.specs.Reading.{read_configuration};
ghost use Rattle.configuration.specs.Octets.{configuration_octets, offer_refusal};
ghost use Rattle.korvezul.specs.Configurations.{configuration_read};

use korvezul::provisioning::ConfigurationRead;

// Reads a list of nested entries; `authentication` is the type of BFD Authentication.
#[unsafe(no_mangle)]
pub extern "C" fn korvezul_read_configuration(
    octets: &[u8],
    authentication: u16,
) -> ConfigurationRead
    ensures { result ≡ configuration_read (read_configuration authentication octets.now) }
{
    korvezul::provisioning::korvezul_read_configuration(octets, authentication)
}

// Writes a configuration, 40 octets: 10 for the two numbers, then 13 for the buffer, and then no byte
// changes.
#[unsafe(no_mangle)]
pub extern "C" fn korvezul_write_configuration(
    buffer: &mut [u8],
    discriminator: u32,
    period: u32,
) -> u32
    ensures { record { answer = result; buffer = buffer.new } ≡ writing (offer_refusal discriminator period) (configuration_octets discriminator period) buffer.old }
{
    korvezul::provisioning::korvezul_write_configuration(buffer, discriminator, period)
}
