// Setting a group.
ghost use Rattle.std.specs.Prelude.{◌≡◌};
ghost use Rattle.homing.specs.Groups.{one_of_two, no_group, first_pw, grouped};
ghost use Rattle.octets.specs.Refusals.{refusal_in};
ghost use Rattle.homing.specs.Setting.{set_refusal};

use crate::{Found, Group, GroupSettings};
use octets::Refusal;

pub fn no_group() -> Group
    ensures { result ≡ no_group }
{
    Group {
        id: 0,
        peer: 0,
        dni: 0,
        set: 0,
        role: 0,
        pw: 0,
        ac: 0,
    }
}

// Every number but 0 is the second value.
pub fn one_of_two(n: u8) -> u8
    ensures { result ≡ one_of_two n }
{
    n.min(1)
}

// The PW at setting and at return.
pub fn first_pw(role: u8, loss: bool, crossing: bool) -> u8
    ensures { result ≡ first_pw role loss crossing }
{
    if role == 0 && !loss && !crossing {
        1
    } else {
        0
    }
}

// A new group, while a loss or a crossing of its service PW stands or not.
pub fn group_of(s: GroupSettings, loss: bool, crossing: bool) -> Group
    ensures { result ≡ grouped s loss crossing }
{
    Group {
        id: s.id,
        peer: s.peer,
        dni: s.dni,
        set: 1,
        role: one_of_two(s.role),
        pw: first_pw(s.role, loss, crossing),
        ac: 0,
    }
}

// What setting is refused for.
pub fn set_refusal(s: GroupSettings, f: Found) -> Result<(), Refusal>
    ensures { refusal_in result ≡ set_refusal s f }
{
    if !f.service || !f.dni {
        return Err(Refusal::NotOpen);
    }
    if s.service == s.dni {
        return Err(Refusal::OutOfRange);
    }
    if f.grouped || f.taken {
        return Err(Refusal::Taken);
    }
    Ok(())
}
