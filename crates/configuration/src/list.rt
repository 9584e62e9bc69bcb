// "A TLV holds a list of TLVs, and a list holds TLVs": the reader of an entry and the reader of a list
// call each other, and the levels left fall.
ghost use Rattle.std.specs.Prelude.{◌≡◌, min, length};
ghost use Rattle.configuration.specs.Entries.{size_of, padded_size, entry_at, with_held, entries_in};
ghost use Rattle.configuration.specs.Noting.{noted_all};

use crate::Seen;
use crate::entry::{holds_list, note, padded_size};
use octets::{from_place, get_u16, part};

// Where the entry behind the one at the front begins; the end where there is none.
#[tactic(auto, unfolding(crate::specs::Entries::padded_size))]
fn next_place(rest: &[u8]) -> usize
    ensures { result ≡ min (length rest.now) (padded_size (size_of rest.now)) }
{
    rest.len().min(padded_size(get_u16(rest, 2)))
}

// The entry at the front of `rest`, which reaches to its holder's end, and all that it holds.
#[tactic(auto, unfolding(crate::specs::Entries::entry_at, crate::specs::Entries::with_held, crate::specs::Noting::noted_all))]
#[cycle(read_entry_read_list)]
pub fn read_entry(rest: &[u8], levels: u8, authentication: u16, seen: Seen) -> Seen
    ensures { result ≡ noted_all authentication seen (with_held levels (entry_at levels rest.now)) }
{
    if levels == 0 {
        return seen;
    }
    let kind = get_u16(rest, 0);
    let size = get_u16(rest, 2);
    let past = rest.len() < padded_size(size);
    let value = part(rest, 4, size as usize);
    let met = note(authentication, seen, levels, kind, size, past, value);
    if holds_list(levels, kind, size, past) {
        return read_list(from_place(value, 4), levels - 1, authentication, met);
    }
    met
}

// The entries of a list, one behind the other.
#[tactic(auto, unfolding(crate::specs::Entries::entries_in, crate::specs::Noting::noted_all))]
#[cycle(read_entry_read_list)]
pub fn read_list(list: &[u8], levels: u8, authentication: u16, seen: Seen) -> Seen
    ensures { result ≡ noted_all authentication seen (entries_in levels list.now) }
{
    let mut rest = list;
    let mut met = seen;
    while 0 < rest.len() {
        met = read_entry(rest, levels, authentication, met);
        let next = next_place(rest);
        rest = &rest[next..];
    }
    met
}
