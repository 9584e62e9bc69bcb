// What 26 asks of the group in the record of an open label.
ghost use Rattle.std.specs.Prelude.{◌≡◌};
ghost use Rattle.homing.specs.Fitting.{marks_fit, dni_fits, group_fits};

use crate::Group;

fn marks_fit(role: u8, pw: u8, ac: u8) -> bool
    ensures { result ≡ marks_fit role pw ac }
{
    role < 2 && pw < 2 && ac < 2
}

fn dni_fits(label: u32, dni: u32) -> bool
    ensures { result ≡ dni_fits label dni }
{
    16 <= dni && dni <= 1_048_575 && dni != label && rules::party_of(dni) == rules::party_of(label)
}

// The most common record has no group: one number is looked at.
#[tactic(auto, unfolding(crate::specs::Fitting::group_fits))]
pub fn group_fits(label: u32, g: Group) -> bool
    ensures { result ≡ group_fits label g }
{
    g.set == 0 || (g.set == 1 && marks_fit(g.role, g.pw, g.ac) && dni_fits(label, g.dni))
}
