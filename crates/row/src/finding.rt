// The search for a record, and the place of a label by a hint.
ghost use Rattle.std.specs.Prelude.{◌≡◌, not, ◌&&◌, eqb, ltb};
ghost use Rattle.table.specs.Places.{first_on, occupied_at, has_label, hits, first_hit};
ghost use Rattle.table.specs.Hints.{hint_of, hint_kept, placed_by};

use crate::record_at;
use session::Session;

// The first place of the set is occupied, and its record has the label or the discriminator.
fn is_hit(rest: u64, r: Session, label: u32, discriminator: u32) -> bool
    ensures { result ≡ (first_on rest && hits label discriminator r) }
{
    rest % 2 == 1 && (r.settings.label == label || r.settings.discriminator == discriminator)
}

// The first open record that has the label or the discriminator; the row's length where there is
// none.
pub fn find(row: &[Session], occupied: u64, label: u32, discriminator: u32) -> usize
    ensures { result ≡ first_hit label discriminator occupied row.now }
{
    let mut rest = occupied;
    for i in 0..row.len() {
        if rest == 0 {
            break;
        }
        if is_hit(rest, row[i], label, discriminator) {
            return i;
        }
        rest /= 2;
    }
    row.len()
}

// Where a label was found last; 0 where the hints end before it.
#[tactic(auto, unfolding(table::specs::Hints::hint_of))]
fn hint_of(hints: &[u8], label: u32) -> usize
    ensures { result ≡ hint_of hints.now label }
{
    octets::get_u8(hints, (label % 256) as usize) as usize
}

// A place is kept in one octet. Past 255 it is 255, which is past every row in order.
#[tactic(auto, unfolding(table::specs::Hints::hint_kept))]
fn keep_hint(hints: &mut [u8], label: u32, place: usize)
    ensures { hints.new ≡ hint_kept hints.old label place }
{
    octets::put_u8(hints, (label % 256) as usize, place.min(255) as u8);
}

// The record of a place has the label, and the place is one of the row and occupied.
fn is_at(r: Session, at: usize, records: usize, occupied: u64, label: u32) -> bool
    ensures { result ≡ (ltb at records && occupied_at occupied at && has_label label r) }
{
    // First, so that the place fits 32 bits.
    if 64 <= at {
        return false;
    }
    at < records && table::is_occupied(occupied, at as u32) && r.settings.label == label
}

// The place of a label: where it was found last, or by a search.
#[tactic(auto, unfolding(table::specs::Hints::placed_by))]
pub fn place_known(row: &[Session], hints: &mut [u8], occupied: u64, label: u32) -> usize
    ensures { record { place = result; hints = hints.new } ≡ placed_by row.now hints.old occupied label }
{
    let hint = hint_of(&*hints, label);
    if is_at(record_at(row, hint), hint, row.len(), occupied, label) {
        return hint;
    }
    let place = find(row, occupied, label, 0);
    keep_hint(&mut *hints, label, place);
    place
}
