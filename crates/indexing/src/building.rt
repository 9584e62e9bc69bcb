// An index built in one call.
ghost use Rattle.std.specs.Prelude.{min, ◌≡◌};
ghost use Rattle.indexing.specs.Building.{built_in, build_of};

use crate::IndexHead;
use crate::begin::begin_fill;
use crate::entries::fill;
use crate::looking::room_of;
use crate::numbers::fill_numbers;
use octets::Refusal;
use session::Session;

// The index of a log for one label, in three lent slices: 19 for a bad header, a cut record or too many
// records, 13 where a slice is too short. A refusal writes nothing.
pub fn build(
    log: &[u8],
    label: u32,
    clocks: &mut [u64],
    places: &mut [u64],
    records: &mut [Session],
) -> Result<IndexHead, Refusal>
    ensures { record { built = built_in result; clocks = clocks.new; places = places.new; records = records.new } ≡ build_of log.now label clocks.old places.old records.old }
{
    let room = room_of(clocks.len(), places.len(), records.len());
    let from = begin_fill(log, label, room)?;
    fill_numbers(clocks, places, from, log);
    fill(records, from, log);
    Ok(IndexHead {
        length: log.len() as u64,
        label,
        count: from.count.min(256) as u32,
    })
}
