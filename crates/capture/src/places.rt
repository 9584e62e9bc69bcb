// Elements of a lent slice, by a place that may be past its end.
ghost use Rattle.std.specs.Prelude.{◌≡◌, get_or, set};

// An element put at a place; past the end nothing is put. By index: behind `get_mut` the goal stands
// on values that only the checker names.
#[tactic(auto, using(crate::proofs::Stores::out_of_place))]
pub fn put_at<T: Copy>(s: &mut [T], at: usize, x: T)
    ensures { s.new ≡ set s.old at x }
{
    if at < s.len() {
        s[at] = x;
    }
}

// The element at a place; `none` past the end.
#[tactic(auto, using(crate::proofs::Stores::out_of_place))]
pub fn get_at<T: Copy>(s: &[T], at: usize, none: T) -> T
    ensures { result ≡ get_or s.now at none }
{
    if at < s.len() { s[at] } else { none }
}
