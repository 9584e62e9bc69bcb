// What a session's record shows at a clock.
ghost use Rattle.std.specs.Prelude.{◌≡◌, cond};
ghost use Rattle.rules.specs.States.{moved};
ghost use Rattle.rules.specs.declared.Input.TheVariants.{Timer};
ghost use Rattle.session.specs.Queries.{locked_in, loss_at, crossing_at, defect_at, held_at, state_at, group_at, report_at, diagnostic_at, packet_at, cc_octets_at, cv_size_of, cv_whole_at};

use crate::Session;
use bfd::Packet;
use cv::CvOctets;
use gach::CC_CHANNEL;
use homing::Group;
use rules::{Input, Mode, Report, State};

pub fn is_locked(s: Session) -> bool
    ensures { result ≡ locked_in s }
{
    rules::locked(State::from(s.state))
}

// A loss: more than the detection time, not locked, and no source in UP. Most are not late, so that is
// asked first.
#[tactic(auto, unfolding(crate::specs::Queries::loss_at))]
pub fn loss_at(s: Session, now: u64) -> bool
    ensures { result ≡ loss_at s now }
{
    let span = rules::detection_time(s.settings.period, s.peer.multiplier);
    rules::is_past(s.timed, span, now) && rules::is_exposed(s.settings.mode, s.state)
}

// A crossing: less than its time since the last crossed message.
#[tactic(auto, unfolding(crate::specs::Queries::crossing_at))]
pub fn crossing_at(s: Session, now: u64) -> bool
    ensures { result ≡ crossing_at s now }
{
    s.crossing == 1 && rules::is_within(s.crossed, 3_500_000, now)
}

// A crossing stands, or a condition that the session follows. Every heard CC asks, and most sessions
// have no condition, or none that they follow: that is asked first, of the record where it lies.
#[tactic(auto, unfolding(crate::specs::Queries::defect_at))]
fn defect_at(s: Session, now: u64) -> bool
    ensures { result ≡ defect_at s now }
{
    if crossing_at(s, now) {
        return true;
    }
    if conditions::four_empty(
        s.conditions.first.key.kind,
        s.conditions.second.key.kind,
        s.conditions.third.key.kind,
        s.conditions.fourth.key.kind,
    ) {
        return false;
    }
    let link = s.settings.followlink;
    let lock = s.settings.followlock;
    conditions::any_marked(link, lock, s.conditions)
        && conditions::any_followed(link, lock, s.conditions, now)
}

// Held down: a coordinated session with such a defect.
#[tactic(auto, unfolding(crate::specs::Queries::held_at))]
pub(crate) fn held_at(s: Session, now: u64) -> bool
    ensures { result ≡ held_at s now }
{
    s.settings.mode == 0 && defect_at(s, now)
}

// A session with a loss is no source in UP, and TIMER moves all others alike.
fn after_timer(loss: bool, from: State) -> State
    ensures { result ≡ cond loss (moved from Timer) from }
{
    if loss {
        rules::coordinated_move(from, Input::Timer)
    } else {
        from
    }
}

// The state at a clock: a session with a loss has been given TIMER.
#[tactic(auto, unfolding(crate::specs::Queries::state_at))]
pub fn state_at(s: Session, now: u64) -> State
    ensures { result ≡ state_at s now }
{
    after_timer(loss_at(s, now), State::from(s.state))
}

// The group at a clock: a loss has made a working PE's PW standby.
#[tactic(auto, unfolding(crate::specs::Queries::group_at))]
pub fn group_at(s: Session, now: u64) -> Group
    ensures { result ≡ group_at s now }
{
    homing::fallen_at(s.group, loss_at(s, now))
}

// Its PW alone.
#[tactic(auto, unfolding(crate::specs::Queries::group_at))]
pub(crate) fn pw_at(s: Session, now: u64) -> u8
    ensures { result ≡ (group_at s now).pw }
{
    homing::fallen_pw(loss_at(s, now), s.group.role, s.group.pw)
}

// The seven numbers of the report.
#[tactic(auto, unfolding(crate::specs::Queries::report_at))]
pub fn report_at(s: Session, now: u64) -> Report
    ensures { result ≡ report_at s now }
{
    let crossing = u8::from(crossing_at(s, now));
    let loss = loss_at(s, now);
    let count = conditions::count_at(s.conditions, now);
    let alarm = rules::loss_alarm(loss, count);
    let rdi = rules::remote_defect(is_locked(s), loss, s.peer.diagnostic);
    Report {
        state: rules::report_number(state_at(s, now)),
        crossing,
        loss: u8::from(loss),
        alarm: u8::from(alarm),
        rdi: u8::from(rdi),
        blocked: crossing,
        conditions: count,
    }
}

// The diagnostic to write.
#[tactic(auto, unfolding(crate::specs::Queries::diagnostic_at))]
pub fn diagnostic_at(s: Session, now: u64) -> u8
    ensures { result ≡ diagnostic_at s now }
{
    let followed = conditions::any_followed(
        s.settings.followlink,
        s.settings.followlock,
        s.conditions,
        now,
    );
    rules::diagnostic_of(
        is_locked(s),
        crossing_at(s, now),
        followed,
        loss_at(s, now),
        rules::down_by_neighbor(state_at(s, now)),
    )
}

// The packet to write, with the F flag that is asked for.
#[tactic(auto, unfolding(crate::specs::Queries::packet_at))]
pub fn packet_at(s: Session, now: u64, fin: bool) -> Packet
    ensures { result ≡ packet_at s now fin }
{
    let required = rules::required_interval(Mode::from(s.settings.mode), s.settings.period);
    Packet {
        diagnostic: diagnostic_at(s, now),
        state: rules::report_number(state_at(s, now)),
        poll: false,
        fin,
        independent: false,
        demand: false,
        multiplier: 3,
        my: s.settings.discriminator,
        your: s.peer.remote,
        transmit: s.settings.period,
        receive: required,
        echo: 0,
    }
}

// The 28 octets of the CC, with F where a reply is owed.
#[tactic(auto, unfolding(crate::specs::Queries::cc_octets_at))]
pub fn cc_octets_at(s: Session, now: u64) -> [u8; 28]
    ensures { result ≡ cc_octets_at s now }
{
    let owed = s.peer.owed == 1;
    bfd::packet_octets(packet_at(s, now, owed), CC_CHANNEL)
}

// How many octets the CV has, by the session's own MEP-ID.
pub fn cv_size_of(s: Session) -> usize
    ensures { result ≡ cv_size_of s }
{
    28 + cv::mep_size(s.settings.own)
}

// The octets of the CV, and how many they are.
#[tactic(auto, unfolding(crate::specs::Queries::cv_whole_at))]
pub fn cv_octets_at(s: Session, now: u64) -> CvOctets
    ensures { result ≡ cv_whole_at s now }
{
    cv::cv_octets(packet_at(s, now, false), s.settings.own)
}
