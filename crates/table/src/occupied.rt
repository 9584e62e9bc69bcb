// The 64-bit set of occupied places.
ghost use Rattle.std.specs.Prelude.{◌≡◌};
ghost use Rattle.table.specs.Places.{lowest_free, occupied_of, occupied_at, with_place, without_place};

// The lowest free place; 64 where all are taken.
pub fn lowest_free(occupied: u64) -> u32
    ensures { result ≡ lowest_free 64 occupied }
{
    u64::trailing_zeros(!occupied)
}

// How many places are taken.
pub fn open_count(occupied: u64) -> u32
    ensures { result ≡ occupied_of 64 occupied }
{
    u64::count_ones(occupied)
}

#[tactic(auto, unfolding(crate::specs::Places::occupied_at))]
pub fn is_occupied(occupied: u64, place: u32) -> bool
    ensures { result ≡ occupied_at occupied place }
{
    place < 64 && (occupied >> place) % 2 == 1
}

// The set with a place taken; past the 64 nothing changes.
#[tactic(auto, unfolding(crate::specs::Places::with_place))]
pub fn with_place(occupied: u64, place: u32) -> u64
    ensures { result ≡ with_place occupied place }
{
    if place < 64 && !is_occupied(occupied, place) {
        occupied + (1u64 << place)
    } else {
        occupied
    }
}

// The set with a place free.
#[tactic(auto, unfolding(crate::specs::Places::without_place))]
pub fn without_place(occupied: u64, place: u32) -> u64
    ensures { result ≡ without_place occupied place }
{
    if place < 64 && is_occupied(occupied, place) {
        occupied - (1u64 << place)
    } else {
        occupied
    }
}
