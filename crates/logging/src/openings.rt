// A record of an open: its settings, as far as a record can hold them.
ghost use Rattle.std.specs.Prelude.{◌≡◌};
ghost use Rattle.octets.specs.Refusals.{refusal_in};
ghost use Rattle.octets.specs.Writing.{writing};
ghost use Rattle.logging.specs.Logging.{is_plain, settings_held, opening_of, body_octets, open_refusal, open_octets};

use crate::Logged;
use crate::calls::{head_octets, write_both};
use cv::MepId;
use octets::{Refusal, put_u8, put_u16, put_u32};
use rules::Settings;

// A record has 12 octets for a MEP-ID: no AGI, no AGI type, no AGI length.
fn is_plain(m: MepId) -> bool
    ensures { result ≡ is_plain m }
{
    m.group == 0
        && m.size == 0
        && m.agi.first == 0
        && m.agi.second == 0
        && m.agi.third == 0
        && m.agi.fourth == 0
}

// What a record holds of settings is all of them.
#[tactic(auto, unfolding(crate::specs::Logging::settings_held))]
fn settings_held(g: Settings) -> bool
    ensures { result ≡ settings_held g }
{
    g.own.kind == g.expected.kind
        && g.own.kind != 2
        && g.followlink < 2
        && g.followlock < 2
        && is_plain(g.own)
        && is_plain(g.expected)
        && g.mode == 0
}

// The body: discriminator, period, the type of both MEP-IDs, own, expected, and the marks.
fn body_octets(g: Settings) -> [u8; 35]
    ensures { result ≡ body_octets g }
{
    let mut o = [0u8; 35];
    put_u32(&mut o, 0, g.discriminator);
    put_u32(&mut o, 4, g.period);
    put_u16(&mut o, 8, g.own.kind);
    put_u32(&mut o, 10, g.own.global);
    put_u32(&mut o, 14, g.own.node);
    put_u32(&mut o, 18, g.own.local);
    put_u32(&mut o, 22, g.expected.global);
    put_u32(&mut o, 26, g.expected.node);
    put_u32(&mut o, 30, g.expected.local);
    put_u8(&mut o, 34, g.followlink % 2 + g.followlock % 2 * 2);
    o
}

fn opening_of(label: u32, reading: u64, answer: u16) -> Logged
    ensures { result ≡ opening_of label reading answer }
{
    Logged {
        time: reading,
        label,
        kind: 1,
        answer,
    }
}

// Writes the record into b, 53 octets: 10 for settings that a record cannot hold, 13 for a buffer that
// is shorter, and then no byte changes.
#[tactic(auto, using(crate::proofs::Runs::writes), unfolding(crate::specs::Logging::open_refusal))]
pub fn write_open(
    b: &mut [u8],
    settings: Settings,
    reading: u64,
    answer: u16,
) -> Result<(), Refusal>
    ensures { record { answer = refusal_in result; buffer = b.new } ≡ writing (open_refusal settings) (open_octets settings reading answer) b.old }
{
    if !settings_held(settings) {
        return Err(Refusal::OutOfRange);
    }
    let head = head_octets(opening_of(settings.label, reading, answer), 35);
    let body = body_octets(settings);
    write_both(b, &head, &body)
}
