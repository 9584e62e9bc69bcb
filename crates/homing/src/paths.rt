// Which way a PE forwards.
ghost use Rattle.std.specs.Prelude.{◌≡◌};
ghost use Rattle.homing.specs.Forwarding.{behavior, forwarding, group_report};

use crate::steps::fallen_at;
use crate::{Group, GroupReport};

// Table 1. With PW and AC both active the DNI-PW is not asked.
fn behavior_of(pw: bool, ac: bool, up: bool) -> u8
    ensures { result ≡ behavior pw ac up }
{
    match (pw, ac, up) {
        (true, true, _) => 1,
        (true, false, true) => 2,
        (false, true, true) => 3,
        (true, false, false) | (false, _, _) => 0,
    }
}

pub fn forwarding_of(pw: u8, ac: u8, up: bool) -> u8
    ensures { result ≡ forwarding pw ac up }
{
    behavior_of(pw == 1, ac == 1, up)
}

// What asking tells, where there is a loss of the service PW at the clock or not, and the DNI-PW is up or not.
pub fn group_report(g: Group, loss: bool, up: bool) -> GroupReport
    ensures { result ≡ group_report loss up g }
{
    let kept = fallen_at(g, loss);
    GroupReport {
        pw: kept.pw,
        ac: kept.ac,
        forwarding: forwarding_of(kept.pw, kept.ac, up),
    }
}
