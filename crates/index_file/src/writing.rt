// The octets of an index file, part by part.
ghost use Rattle.std.specs.Prelude.{◌≡◌, []};
ghost use Rattle.index_file.specs.Octets.{key_octets, condition_octets, conditions_octets, mep_octets, settings_octets, peer_octets, session_octets, entry_octets, head_octets};

use crate::Entry;
use conditions::{Condition, Conditions};
use cv::MepId;
use indexing::IndexHead;
use octets::{put_octets, put_u8, put_u16, put_u32, put_u64};
use rules::{Key, Settings};
use session::{Peer, Session};

fn key_octets(k: Key) -> [u8; 15]
    ensures { result ≡ key_octets k [] }
{
    let mut o = [0u8; 15];
    put_u32(&mut o, 0, k.node);
    put_u32(&mut o, 4, k.interface);
    put_u32(&mut o, 8, k.global);
    put_u8(&mut o, 12, k.kind);
    put_u8(&mut o, 13, k.present);
    put_u8(&mut o, 14, k.carrier);
    o
}

fn condition_octets(c: Condition) -> [u8; 25]
    ensures { result ≡ condition_octets c [] }
{
    let mut o = [0u8; 25];
    let key = key_octets(c.key);
    put_u64(&mut o, 0, c.at);
    put_octets(&mut o, 8, &key);
    put_u8(&mut o, 23, c.refresh);
    put_u8(&mut o, 24, c.linkdown);
    o
}

fn conditions_octets(cs: Conditions) -> [u8; 100]
    ensures { result ≡ conditions_octets cs [] }
{
    let mut o = [0u8; 100];
    let first = condition_octets(cs.first);
    let second = condition_octets(cs.second);
    let third = condition_octets(cs.third);
    let fourth = condition_octets(cs.fourth);
    put_octets(&mut o, 0, &first);
    put_octets(&mut o, 25, &second);
    put_octets(&mut o, 50, &third);
    put_octets(&mut o, 75, &fourth);
    o
}

fn mep_octets(m: MepId) -> [u8; 48]
    ensures { result ≡ mep_octets m [] }
{
    let mut o = [0u8; 48];
    put_u64(&mut o, 0, m.agi.first);
    put_u64(&mut o, 8, m.agi.second);
    put_u64(&mut o, 16, m.agi.third);
    put_u64(&mut o, 24, m.agi.fourth);
    put_u32(&mut o, 32, m.global);
    put_u32(&mut o, 36, m.node);
    put_u32(&mut o, 40, m.local);
    put_u16(&mut o, 44, m.kind);
    put_u8(&mut o, 46, m.group);
    put_u8(&mut o, 47, m.size);
    o
}

fn settings_octets(g: Settings) -> [u8; 111]
    ensures { result ≡ settings_octets g [] }
{
    let mut o = [0u8; 111];
    let own = mep_octets(g.own);
    let expected = mep_octets(g.expected);
    put_octets(&mut o, 0, &own);
    put_octets(&mut o, 48, &expected);
    put_u32(&mut o, 96, g.label);
    put_u32(&mut o, 100, g.discriminator);
    put_u32(&mut o, 104, g.period);
    put_u8(&mut o, 108, g.followlink);
    put_u8(&mut o, 109, g.followlock);
    put_u8(&mut o, 110, g.mode);
    o
}

fn peer_octets(p: Peer) -> [u8; 7]
    ensures { result ≡ peer_octets p [] }
{
    let mut o = [0u8; 7];
    put_u32(&mut o, 0, p.remote);
    put_u8(&mut o, 4, p.multiplier);
    put_u8(&mut o, 5, p.diagnostic);
    put_u8(&mut o, 6, p.owed);
    o
}

fn session_octets(s: Session) -> [u8; 236]
    ensures { result ≡ session_octets s [] }
{
    let mut o = [0u8; 236];
    let conditions = conditions_octets(s.conditions);
    let settings = settings_octets(s.settings);
    let peer = peer_octets(s.peer);
    put_u64(&mut o, 0, s.timed);
    put_u64(&mut o, 8, s.crossed);
    put_octets(&mut o, 16, &conditions);
    put_octets(&mut o, 116, &settings);
    put_octets(&mut o, 227, &peer);
    put_u8(&mut o, 234, s.state);
    put_u8(&mut o, 235, s.crossing);
    o
}

pub fn entry_octets(e: Entry) -> [u8; 252]
    ensures { result ≡ entry_octets e [] }
{
    let mut o = [0u8; 252];
    let session = session_octets(e.session);
    put_u64(&mut o, 0, e.clock);
    put_u64(&mut o, 8, e.place);
    put_octets(&mut o, 16, &session);
    o
}

pub fn head_octets(h: IndexHead) -> [u8; 24]
    ensures { result ≡ head_octets h [] }
{
    let mut o = [
        84u8, 80, 88, 0, 1, 0, 0, 0, 0, 0, 0, 0, 0, 0, 0, 0, 0, 0, 0, 0, 0, 0, 0, 0,
    ];
    put_u64(&mut o, 8, h.length);
    put_u32(&mut o, 16, h.label);
    put_u32(&mut o, 20, h.count);
    o
}
