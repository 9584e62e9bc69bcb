// What the operator's calls, a loss and a crossed message make of a group.
ghost use Rattle.std.specs.Prelude.{◌≡◌, cond};
ghost use Rattle.homing.specs.Groups.{ac_set, returned, lowered, fallen};

use crate::Group;
use crate::setting::{first_pw, one_of_two};

// Setting the AC: 0 is standby, every other number active.
pub fn ac_set(g: Group, ac: u8) -> Group
    ensures { result ≡ ac_set ac g }
{
    Group {
        ac: one_of_two(ac),
        ..g
    }
}

// Return.
pub fn returned_at(g: Group, loss: bool, crossing: bool) -> Group
    ensures { result ≡ returned loss crossing g }
{
    Group {
        pw: first_pw(g.role, loss, crossing),
        ..g
    }
}

// A working PE's PW to standby, a protection PE's as it is.
pub fn lowered_pw(role: u8, pw: u8) -> u8
    ensures { result ≡ lowered role pw }
{
    if role == 0 { 0 } else { pw }
}

// The PW alone where TIMER is given: it is all that a loss moves of a group.
pub fn fallen_pw(loss: bool, role: u8, pw: u8) -> u8
    ensures { result ≡ cond loss (lowered role pw) pw }
{
    if loss { lowered_pw(role, pw) } else { pw }
}

// Where TIMER is given, with a loss or without.
pub fn fallen_at(g: Group, loss: bool) -> Group
    ensures { result ≡ fallen loss g }
{
    Group {
        pw: fallen_pw(loss, g.role, g.pw),
        ..g
    }
}
