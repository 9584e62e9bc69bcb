// The entries judged on the way to the one that a search found.
ghost use Rattle.std.specs.Prelude.{◌≡◌, ◌+◌, ◌^◌, ◌<◌, ℕ, Bool};
ghost use Rattle.indexing.specs.Judging.{judged_of};

// Entries that are judged by their place: those of three lent slices, or those of a file.
pub trait Ranged {
    // Which are in range.
    ghost in_range: { Self → ℕ → Bool };

    fn fits_at(&self, k: usize) -> bool
        ensures { result ≡ in_range self.now k };
}

// Of n candidates from `first` on those that the search looked at, and the one at `place`, which it found.
// It went on from an entry exactly if what it found is not before it.
#[tactic(auto, using(crate::proofs::Halved::judges))]
fn judged_from<E: Ranged>(entries: &E, place: usize, first: usize, n: usize) -> bool
    requires { first + n < 2 ^ 64 }
    ensures { result ≡ judged_of (E.in_range entries.now) place first n }
{
    if n < 2 {
        return entries.fits_at(first);
    }
    let half = n / 2;
    let middle = first + half;
    if !entries.fits_at(middle) {
        return false;
    }
    if middle <= place {
        judged_from(entries, place, middle, n - half)
    } else {
        judged_from(entries, place, first, half)
    }
}

// The same of all n.
pub fn judged<E: Ranged>(entries: &E, place: usize, n: usize) -> bool
    ensures { result ≡ judged_of (E.in_range entries.now) place 0 n }
{
    judged_from(entries, place, 0, n)
}
