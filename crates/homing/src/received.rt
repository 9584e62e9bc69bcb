// What a DHC message is to a group, and what it makes of it.
ghost use Rattle.std.specs.Prelude.{◌≡◌};
ghost use Rattle.homing.specs.Messages.{has_id, status_from_peer, switching_from_peer, takes_from, fails, switches, switched_pw, coordinated};

use crate::Group;
use coordination::{Dhc, NodeSwitching, PwStatus};

// A group that is there, of this ID.
pub fn has_id(g: Group, id: u32) -> bool
    ensures { result ≡ has_id id g }
{
    g.set == 1 && g.id == id
}

fn status_from_peer(peer: u32, status: Option<PwStatus>) -> bool
    ensures { result ≡ status_from_peer peer status }
{
    match status {
        None => true,
        Some(s) => s.source == peer,
    }
}

fn switching_from_peer(peer: u32, switching: Option<NodeSwitching>) -> bool
    ensures { result ≡ switching_from_peer peer switching }
{
    match switching {
        None => true,
        Some(w) => w.source == peer,
    }
}

// Whether the group takes a message that came on a label; 24 where it does not.
pub fn takes_from(g: Group, d: Dhc, label: u32) -> bool
    ensures { result ≡ takes_from label d g }
{
    has_id(g, d.id)
        && g.dni == label
        && status_from_peer(g.peer, d.status)
        && switching_from_peer(g.peer, d.switching)
}

// F.
fn says_fail(status: Option<PwStatus>) -> bool
    ensures { result ≡ fails status }
{
    match status {
        None => false,
        Some(s) => s.fail,
    }
}

// S.
fn says_switch(switching: Option<NodeSwitching>) -> bool
    ensures { result ≡ switches switching }
{
    match switching {
        None => false,
        Some(w) => w.switch,
    }
}

fn switched_pw(switch: bool, fail: bool, role: u8, pw: u8) -> u8
    ensures { result ≡ switched_pw switch fail role pw }
{
    if role == 0 {
        return if switch { 0 } else { pw };
    }
    if switch || fail { 1 } else { pw }
}

// A message that is taken.
pub fn coordinated_by(g: Group, d: Dhc) -> Group
    ensures { result ≡ coordinated d g }
{
    Group {
        pw: switched_pw(says_switch(d.switching), says_fail(d.status), g.role, g.pw),
        ..g
    }
}
