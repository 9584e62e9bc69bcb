// Refusal 26 for one record: early returns over numbers. Most records have no crossing, no group and no
// condition: those are asked for together, behind what every record is asked, and nothing else is
// asked of a record that has neither.
ghost use Rattle.std.specs.Prelude.{◌≡◌, ◌&&◌};
ghost use Rattle.homing.specs.Fitting.{group_fits};
ghost use Rattle.conditions.specs.Soundness.{conditions_sound};
ghost use Rattle.session.specs.Soundness.{plain_fit, crossing_fits, calm, remote_fits, own_plain, session_sound};

use crate::Session;
use rules::State;

fn plain_fit(state: u8, multiplier: u8, diagnostic: u8, owed: u8) -> bool
    ensures { result ≡ plain_fit state multiplier diagnostic owed }
{
    state <= 4 && 1 <= multiplier && diagnostic <= 31 && owed <= 1
}

fn crossing_fits(crossing: u8, crossed: u64, clock: u64) -> bool
    ensures { result ≡ crossing_fits crossing crossed clock }
{
    crossing == 0 || (crossing <= 1 && crossed <= clock)
}

fn is_calm(crossing: u8, group: u8, first: u8, second: u8, third: u8, fourth: u8) -> bool
    ensures { result ≡ calm crossing group first second third fourth }
{
    crossing == 0 && group == 0 && first == 0 && second == 0 && third == 0 && fourth == 0
}

fn remote_fits(state: u8, remote: u32) -> bool
    ensures { result ≡ remote_fits state remote }
{
    !rules::coming_up(State::from(state)) || remote != 0
}

#[tactic(auto, unfolding(crate::specs::Soundness::own_plain))]
fn own_plain(s: Session, clock: u64) -> bool
    ensures { result ≡ own_plain s clock }
{
    plain_fit(s.state, s.peer.multiplier, s.peer.diagnostic, s.peer.owed)
        && s.timed <= clock
        && remote_fits(s.state, s.peer.remote)
}

// What is asked of a record besides, where there is a crossing, a condition or a group.
#[tactic(auto, unfolding(conditions::specs::Soundness::conditions_sound, homing::specs::Fitting::group_fits))]
fn rest_sound(s: Session, clock: u64) -> bool
    ensures { result ≡ (crossing_fits s.crossing s.crossed clock && (conditions_sound s.conditions clock && group_fits s.settings.label s.group)) }
{
    crossing_fits(s.crossing, s.crossed, clock)
        && conditions::conditions_sound(s.conditions, clock)
        && homing::group_fits(s.settings.label, s.group)
}

// The clauses of 26 for one record at a clock.
#[tactic(auto, unfolding(crate::specs::Soundness::session_sound))]
pub fn session_sound(s: Session, clock: u64) -> bool
    ensures { result ≡ session_sound s clock }
{
    if !rules::settings_fit(s.settings) {
        return false;
    }
    if !own_plain(s, clock) {
        return false;
    }
    if is_calm(
        s.crossing,
        s.group.set,
        s.conditions.first.key.kind,
        s.conditions.second.key.kind,
        s.conditions.third.key.kind,
        s.conditions.fourth.key.kind,
    ) {
        return true;
    }
    rest_sound(s, clock)
}
