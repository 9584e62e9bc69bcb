// Where the building of an index begins.
ghost use Rattle.std.specs.Prelude.{◌+◌, ◌/◌, ◌≡◌};
ghost use Rattle.indexing.specs.Filling.{entries_of, filling_from, begun_in, begun_of};

use crate::Filling;
use call_log::{at_start, count_of};
use octets::Refusal;

fn entries_of(records: usize) -> usize
    ensures { result ≡ entries_of records }
{
    records / 256 + 1
}

fn filling_from(label: u32, count: usize) -> Filling
    ensures { result ≡ filling_from label count }
{
    Filling {
        point: at_start(),
        place: 8,
        at: 0,
        count,
        label,
    }
}

// The whole log is read before anything is written: 19 for a bad header, a cut record or too many
// records, then 13 where the room is less than the entries.
#[tactic(auto, unfolding(crate::specs::Filling::begun_of))]
pub fn begin_fill(log: &[u8], label: u32, room: usize) -> Result<Filling, Refusal>
    ensures { begun_in label result ≡ begun_of log.now label room }
{
    let count = entries_of(count_of(log)?);
    if room < count {
        return Err(Refusal::NoRoom);
    }
    Ok(filling_from(label, count))
}
