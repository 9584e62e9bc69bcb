// Remote defect, loss alarm, and the diagnostic that is written.
ghost use Rattle.std.specs.Prelude.{◌≡◌};
ghost use Rattle.rules.specs.Diagnostics.{says_defect, remote_defect, loss_alarm, diagnostic_of};

fn says_defect(diagnostic: u8) -> bool
    ensures { result ≡ says_defect diagnostic }
{
    diagnostic == 1 || diagnostic == 5 || diagnostic == 9
}

pub fn remote_defect(locked: bool, loss: bool, diagnostic: u8) -> bool
    ensures { result ≡ remote_defect locked loss diagnostic }
{
    !locked && !loss && says_defect(diagnostic)
}

pub fn loss_alarm(loss: bool, conditions: u8) -> bool
    ensures { result ≡ loss_alarm loss conditions }
{
    loss && conditions == 0
}

// The order of the diagnostic.
pub fn diagnostic_of(locked: bool, crossing: bool, followed: bool, loss: bool, neighbor: bool) -> u8
    ensures { result ≡ diagnostic_of locked crossing followed loss neighbor }
{
    if locked {
        return 7;
    }
    if crossing {
        return 9;
    }
    if followed {
        return 5;
    }
    if loss {
        return 1;
    }
    if neighbor {
        return 3;
    }
    0
}
