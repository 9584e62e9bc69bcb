// The key of a fault condition, and which conditions a session follows.
ghost use Rattle.std.specs.Prelude.{◌≡◌};
ghost use Rattle.rules.specs.Conditions.{key_of, same_if_id, same_global_id, same_key, follows_with, fault_input};

use crate::{Input, Key};
use fault::{Fault, IfId};

// The key of a fault message: 0 and a mark of 0 for what is not there.
pub fn key_of(f: Fault) -> Key
    ensures { result ≡ key_of f }
{
    let interface = f.interface.unwrap_or(IfId {
        node: 0,
        interface: 0,
    });
    Key {
        node: interface.node,
        interface: interface.interface,
        global: f.global.unwrap_or(0),
        kind: f.kind,
        present: u8::from(f.interface.is_some()),
        carrier: u8::from(f.global.is_some()),
    }
}

#[tactic(auto, unfolding(crate::specs::Conditions::same_if_id))]
fn same_if_id(a: Key, b: Key) -> bool
    ensures { result ≡ same_if_id a b }
{
    a.present == b.present && (a.present == 0 || (a.node == b.node && a.interface == b.interface))
}

#[tactic(auto, unfolding(crate::specs::Conditions::same_global_id))]
fn same_global_id(a: Key, b: Key) -> bool
    ensures { result ≡ same_global_id a b }
{
    a.carrier == b.carrier && (a.carrier == 0 || a.global == b.global)
}

// Type, IF_ID and Global_ID; that one identifier is absent says nothing of the other. No derived `==`: the numbers of an
// identifier that is not there are no part of a key (`same_key`).
#[tactic(auto, unfolding(crate::specs::Conditions::same_key))]
pub fn same_key(a: Key, b: Key) -> bool
    ensures { result ≡ same_key a b }
{
    a.kind == b.kind && same_if_id(a, b) && same_global_id(a, b)
}

// Whether a session with these two marks follows a condition of this type and L flag.
#[tactic(auto, unfolding(crate::specs::Conditions::follows_with))]
pub fn is_followed(followlink: u8, followlock: u8, kind: u8, linkdown: bool) -> bool
    ensures { result ≡ follows_with followlink followlock kind linkdown }
{
    if kind == 1 {
        return linkdown && followlink == 1;
    }
    followlock == 1
}

// LDI for AIS, LKR for a lock report.
pub fn fault_input(kind: u8) -> Input
    ensures { result ≡ fault_input kind }
{
    if kind == 1 {
        Input::LinkDown
    } else {
        Input::LockReport
    }
}
