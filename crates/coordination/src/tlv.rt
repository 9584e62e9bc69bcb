// The walk over the TLVs of a DHC message.
ghost use Rattle.std.specs.Prelude.{◌≡◌, cond, ◌+◌, ◌<◌};
ghost use Rattle.coordination.specs.Tlvs.{repeated, wrong_length, wrong_tlv, noted, ended, step, tlvs_of};

use octets::get_u16;

// What the TLVs before the place `at` said. bad tells that one was wrong; status and switching are
// the places of a PW Status and a Dual-Node Switching TLV, 0 until then (numbers and no Option: `step` and `dhc_of`
// speak of each of them, also where the walk ended at a wrong TLV). The total length is two
// octets, so a TLV starts below 12 + 65,535.
#[derive(Clone, Copy)]
pub(crate) struct Tlvs {
    pub at: u32,
    pub bad: bool,
    pub status: u32,
    pub switching: u32,
}

#[tactic(auto, unfolding(crate::specs::Tlvs::repeated))]
fn is_repeated(t: Tlvs, kind: u16) -> bool
    ensures { result ≡ repeated t kind }
{
    (kind == 1 && 0 < t.status) || (kind == 2 && 0 < t.switching)
}

#[tactic(auto, unfolding(crate::specs::Tlvs::wrong_length))]
fn has_wrong_length(kind: u16, size: u16) -> bool
    ensures { result ≡ wrong_length kind size }
{
    (kind == 1 && size != 20) || (kind == 2 && size != 16)
}

// Whether the TLV of this type and length at t.at is wrong.
#[tactic(auto, unfolding(crate::specs::Tlvs::wrong_tlv))]
fn is_wrong(t: Tlvs, end: u32, kind: u16, size: u16) -> bool
    requires { t.at < 65547 }
    ensures { result ≡ wrong_tlv t end kind size }
{
    let past = end < t.at + 4 + size as u32;
    is_repeated(t, kind) || has_wrong_length(kind, size) || past
}

fn end_with(end: u32, t: Tlvs) -> Tlvs
    ensures { result ≡ ended end t }
{
    Tlvs {
        at: end,
        bad: true,
        ..t
    }
}

// The new place where the test holds, else the old one.
fn place_if(test: bool, new: u32, old: u32) -> u32
    ensures { result ≡ cond test new old }
{
    if test { new } else { old }
}

// The place of a PW Status and a Dual-Node Switching TLV is kept; another type is passed over.
fn note_tlv(t: Tlvs, kind: u16, size: u16) -> Tlvs
    requires { t.at < 65547 }
    ensures { result ≡ noted t kind size }
{
    Tlvs {
        at: t.at + 4 + size as u32,
        bad: t.bad,
        status: place_if(kind == 1, t.at, t.status),
        switching: place_if(kind == 2, t.at, t.switching),
    }
}

// The walk goes on behind the TLV at t.at, or ends where it is wrong.
fn step_tlv(m: &[u8], end: u32, t: Tlvs) -> Tlvs
    requires { t.at < 65547 }
    ensures { result ≡ step m.now end t }
{
    let at = t.at as usize;
    let kind = get_u16(m, at);
    let size = get_u16(m, at + 2);
    if is_wrong(t, end, kind, size) {
        return end_with(end, t);
    }
    note_tlv(t, kind, size)
}

// The TLVs in `total` octets from octet 12 on.
#[tactic(auto, unfolding(crate::specs::Tlvs::tlvs_of))]
pub(crate) fn read_tlvs(m: &[u8], total: u16) -> Tlvs
    ensures { result ≡ tlvs_of m.now (12 + total) }
{
    let end = 12 + total as u32;
    let mut t = Tlvs {
        at: 12,
        bad: false,
        status: 0,
        switching: 0,
    };
    while t.at < end {
        t = step_tlv(m, end, t);
    }
    t
}
