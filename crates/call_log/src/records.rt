// The records of a log, at the front of the octets that are lent.
ghost use Rattle.std.specs.Prelude.{◌≡◌};
ghost use Rattle.call_log.specs.Records.{header_fits, size_in, whole_of, is_whole, is_cut};

use capture::{is_marked, record_in};

// Whether a log starts with the header.
#[tactic(auto, using(crate::proofs::Marks::log_mark))]
pub fn header_fits(s: &[u8]) -> bool
    ensures { result ≡ header_fits s.now }
{
    is_marked(s, b'L')
}

// The octets of a record.
pub fn size_in(s: &[u8]) -> usize
    ensures { result ≡ size_in s.now }
{
    18 + record_in(s).size as usize
}

fn whole_of(octets: usize, kind: u16, size: u16) -> bool
    ensures { result ≡ whole_of octets kind size }
{
    18 <= octets && kind <= 8 && size <= 2048 && 18 + size as usize <= octets
}

#[tactic(auto, unfolding(crate::specs::Records::is_whole))]
pub fn is_whole(s: &[u8]) -> bool
    ensures { result ≡ is_whole s.now }
{
    let r = record_in(s);
    whole_of(s.len(), r.kind, r.size)
}

// Something is left that is no whole record.
#[tactic(auto, unfolding(crate::specs::Records::is_cut))]
pub fn is_cut(s: &[u8]) -> bool
    ensures { result ≡ is_cut s.now }
{
    !s.is_empty() && !is_whole(s)
}
