// The walk over the TLVs of a fault message.
ghost use Rattle.std.specs.Prelude.{◌≡◌, ◌+◌, ◌<◌};
ghost use Rattle.fault.specs.Tlvs.{repeated, right_length, bad_octet, passed, with_if, with_global, ended, step, tlvs_of};

use octets::{get_u8, get_u32};

// What the TLVs before the place `at` said. bad is 0, or the octet that is wrong, 9 at least; ifid
// and globalid tell whether an IF_ID and a Global_ID were among them, and node, interface and global
// are 0 until then: marks and numbers side by side, since `step` and the theorems on a walk that ended at a wrong octet speak
// of each of them. The total length is one octet, so a TLV starts below 9 + 256.
#[derive(Clone, Copy)]
pub(crate) struct Tlvs {
    pub at: u16,
    pub bad: u16,
    pub ifid: bool,
    pub node: u32,
    pub interface: u32,
    pub globalid: bool,
    pub global: u32,
}

#[tactic(auto, unfolding(crate::specs::Tlvs::repeated))]
fn is_repeated(t: Tlvs, kind: u8) -> bool
    ensures { result ≡ repeated t kind }
{
    match kind {
        1 => t.ifid,
        2 => t.globalid,
        _ => false,
    }
}

#[tactic(auto, unfolding(crate::specs::Tlvs::right_length))]
fn has_right_length(kind: u8, size: u8) -> bool
    ensures { result ≡ right_length kind size }
{
    match kind {
        1 => size == 8,
        2 => size == 4,
        _ => true,
    }
}

// The octet that is wrong in the TLV of this type and length at t.at; 0 where none is.
#[tactic(auto, unfolding(crate::specs::Tlvs::bad_octet))]
fn bad_octet(t: Tlvs, end: u16, kind: u8, size: u8) -> u16
    requires { t.at < 265 }
    ensures { result ≡ bad_octet t end kind size }
{
    let at = t.at;
    if end < at + 2 || is_repeated(t, kind) {
        return at;
    }
    if end < at + 2 + size as u16 {
        return at;
    }
    if has_right_length(kind, size) {
        0
    } else {
        at + 1
    }
}

fn pass_tlv(t: Tlvs, size: u8) -> Tlvs
    requires { t.at < 265 }
    ensures { result ≡ passed t size }
{
    Tlvs {
        at: t.at + 2 + size as u16,
        ..t
    }
}

fn end_with(octet: u16, end: u16, t: Tlvs) -> Tlvs
    ensures { result ≡ ended octet end t }
{
    Tlvs {
        at: end,
        bad: octet,
        ..t
    }
}

fn with_if(t: Tlvs, node: u32, interface: u32) -> Tlvs
    ensures { result ≡ with_if t node interface }
{
    Tlvs {
        ifid: true,
        node,
        interface,
        ..t
    }
}

fn with_global(t: Tlvs, global: u32) -> Tlvs
    ensures { result ≡ with_global t global }
{
    Tlvs {
        globalid: true,
        global,
        ..t
    }
}

// The walk goes on behind the TLV at t.at, or ends at its wrong octet. The value of a TLV that is
// passed over is not read.
fn step_tlv(m: &[u8], end: u16, t: Tlvs) -> Tlvs
    requires { t.at < 265 }
    ensures { result ≡ step m.now end t }
{
    let at = t.at as usize;
    let kind = get_u8(m, at);
    let size = get_u8(m, at + 1);
    let octet = bad_octet(t, end, kind, size);
    if octet != 0 {
        return end_with(octet, end, t);
    }
    let next = pass_tlv(t, size);
    if kind == 1 {
        return with_if(next, get_u32(m, at + 2), get_u32(m, at + 6));
    }
    if kind == 2 {
        return with_global(next, get_u32(m, at + 2));
    }
    next
}

// The TLVs in `total` octets from octet 9 on.
#[tactic(auto, unfolding(crate::specs::Tlvs::tlvs_of))]
pub(crate) fn read_tlvs(m: &[u8], total: u8) -> Tlvs
    ensures { result ≡ tlvs_of m.now (9 + total) }
{
    let end = 9 + total as u16;
    let mut t = Tlvs {
        at: 9,
        bad: 0,
        ifid: false,
        node: 0,
        interface: 0,
        globalid: false,
        global: 0,
    };
    while t.at < end {
        t = step_tlv(m, end, t);
    }
    t
}
