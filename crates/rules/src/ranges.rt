// What an opening gives, in range or not.
ghost use Rattle.std.specs.Prelude.{◌≡◌};
ghost use Rattle.rules.specs.Settings.{circuit_fits, ends_fit, choices_fit, settings_fit};

use crate::Settings;

fn circuit_fits(label: u32, discriminator: u32, period: u32) -> bool
    ensures { result ≡ circuit_fits label discriminator period }
{
    16 <= label
        && label <= 1_048_575
        && discriminator != 0
        && 1_000 <= period
        && period <= 10_000_000
}

// Each MEP-ID by its type and its AGI length. Both are asked before either is looked at: with an early end between them the
// compiler loads each record of a scan whole ahead of its tests, some 90 instructions more a record.
fn ends_fit(own: u16, agi: u8, expected: u16, other: u8) -> bool
    ensures { result ≡ ends_fit own agi expected other }
{
    let near = cv::mep_fits(own, agi);
    let far = cv::mep_fits(expected, other);
    near && far
}

// The two marks and the mode.
fn choices_fit(followlink: u8, followlock: u8, mode: u8) -> bool
    ensures { result ≡ choices_fit followlink followlock mode }
{
    followlink < 2 && followlock < 2 && mode < 3
}

// Every setting in its range.
#[tactic(auto, unfolding(crate::specs::Settings::settings_fit))]
pub fn settings_fit(s: Settings) -> bool
    ensures { result ≡ settings_fit s }
{
    circuit_fits(s.label, s.discriminator, s.period)
        && ends_fit(s.own.kind, s.own.size, s.expected.kind, s.expected.size)
        && choices_fit(s.followlink, s.followlock, s.mode)
}
