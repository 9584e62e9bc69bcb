// The keys of the open records: no two labels alike, and no two discriminators of one party, with
// marks, so that only a number whose mark is there is searched among those before it; the place
// of a label; whether a label or a discriminator is there; how many labels are theirs.
ghost use Rattle.std.specs.Prelude.{◌≡◌, ℕ, ◌<◌, ◌^◌, ◌/◌, Bool, true, false, ◌&&◌, eqb, take, drop};
ghost use Rattle.rules.specs.Parties.{party_of, own_number};
ghost use Rattle.rules.specs.Lists.{any};
ghost use Rattle.scan.specs.Distinct.{key_pair, group_key, once_in, key_in, alike, key_stands, reach_of, reached, distinct_in, place_in, rival_in, theirs_of};

pub fn key_pair(label: u32, discriminator: u32) -> u64
    ensures { result ≡ key_pair label discriminator }
{
    discriminator as u64 * 4_294_967_296 + label as u64
}

pub fn group_key(label: u32, id: u32) -> u64
    ensures { result ≡ group_key label id }
{
    own_key(label, id) + 1
}

// The first so many of these; all where there are fewer.
pub fn first_of(keys: &[u64], count: usize) -> &[u64]
    ensures { result.now ≡ take count keys.now }
{
    &keys[..count.min(keys.len())]
}

// What stands behind so many; none where there are fewer.
pub fn behind(keys: &[u64], count: usize) -> &[u64]
    ensures { result.now ≡ drop count keys.now }
{
    &keys[count.min(keys.len())..]
}

// The pairs up to the last occupied place.
fn reached(pairs: &[u64], occupied: u64) -> &[u64]
    ensures { result.now ≡ reached occupied pairs.now }
{
    first_of(pairs, reach(occupied))
}

// Some number passes a test. All of them are looked at: a search with no early end is done four at a time.
fn some_passes<F: Fn(u64) -> bool>(keys: &[u64], test: F) -> bool
    requires { F.IsAlwaysCallable test }
    ensures { (p : ℕ → Bool) → ((x : ℕ) (r : Bool) → x < 2 ^ 64 → F.post test x r → r ≡ p x) → result ≡ any p keys.now }
{
    let mut found = false;
    for &key in keys {
        if test(key) {
            found = true;
        }
    }
    found
}

// No two of these are alike; 0 stands where none was noted. Few tables have groups, and no call is
// timed by them: each is searched among those before it.
pub fn each_once(keys: &[u64]) -> bool
    ensures { result ≡ once_in keys.now }
{
    for i in 0..keys.len() {
        let key = keys[i];
        if key != 0 && some_passes(first_of(keys, i), |k| key == k) {
            return false;
        }
    }
    true
}

fn label_in(pair: u64) -> u32
    ensures { result ≡ key_in true pair }
{
    (pair % 4_294_967_296) as u32
}

fn discriminator_in(pair: u64) -> u32
    ensures { result ≡ pair / 4294967296 }
{
    (pair / 4_294_967_296) as u32
}

// A discriminator within the party of its label, as one number.
fn own_key(label: u32, discriminator: u32) -> u64
    ensures { result ≡ own_number label discriminator }
{
    discriminator as u64 * 2 + rules::party_of(label) as u64
}

fn own_in(pair: u64) -> u64
    ensures { result ≡ key_in false pair }
{
    own_key(label_in(pair), discriminator_in(pair))
}

// How many places there are up to the last occupied one.
#[tactic(auto, unfolding(crate::specs::Distinct::reach_of))]
fn reach(occupied: u64) -> usize
    ensures { result ≡ reach_of occupied }
{
    (64 - u64::leading_zeros(occupied)) as usize
}

// Two pairs have a key in common. Whose they are is asked only where the discriminators are the same.
fn is_alike(q: u64, p: u64) -> bool
    ensures { result ≡ alike q p }
{
    label_in(p) == label_in(q)
        || discriminator_in(p) == discriminator_in(q) && own_in(p) == own_in(q)
}

// A key of a pair is 0, or some pair before this place has one of its keys. The search comes first: behind the two tests
// it takes 12 instructions a pair where it takes 10.
#[tactic(auto, unfolding(crate::specs::Distinct::key_stands))]
fn key_stands(pairs: &[u64], end: usize, pair: u64) -> bool
    ensures { result ≡ key_stands (take end pairs.now) pair }
{
    let found = some_passes(first_of(pairs, end), |p| is_alike(pair, p));
    label_in(pair) == 0 || own_in(pair) == 0 || found
}

// A number stands among these. All of them are looked at, as in `some_passes`, but these are of 32 bits.
fn among(numbers: &[u32], number: u32) -> bool
    ensures { result ≡ any (eqb number) numbers.now }
{
    let mut found = false;
    for &n in numbers {
        if n == number {
            found = true;
        }
    }
    found
}

// No two labels alike, and no two discriminators of one party: one pass over the noted pairs, with a
// mark for each label and each discriminator modulo 1,024, and each kept by its place. Only where a mark
// is there are these searched, and only where that finds the number, as it does where both parties have
// it, is it asked whose it is. 0 is no key; its marks are set ahead of the pass.
pub fn distinct(pairs: &[u64], occupied: u64) -> bool
    ensures { result ≡ (distinct_in true (reach_of occupied) pairs.now && distinct_in false (reach_of occupied) pairs.now) }
{
    let n = reach(occupied).min(pairs.len());
    let mut labels = [false; 1024];
    let mut others = [false; 1024];
    let mut own = [0u32; 64];
    let mut far = [0u32; 64];
    labels[0] = true;
    others[0] = true;
    for i in 0..n {
        let pair = pairs[i];
        if pair != 0 {
            let l = label_in(pair);
            let d = discriminator_in(pair);
            let x = (l % 1024) as usize;
            let y = (d % 1024) as usize;
            if labels[x] || others[y] {
                if among(&own, l) || among(&far, d) {
                    if key_stands(pairs, i, pair) {
                        return false;
                    }
                }
            }
            labels[x] = true;
            others[y] = true;
            own[i] = l;
            far[i] = d;
        }
    }
    true
}

// 1 for a label that is theirs: by a carry into the 33rd bit, so that labels are counted two at a time.
fn theirs_one(label: u32) -> u64
    ensures { result ≡ party_of label }
{
    (label as u64 + 4_294_467_296) / 4_294_967_296
}

// How many labels are theirs. All pairs are looked at: behind the last occupied place there is none.
pub fn theirs_in(pairs: &[u64]) -> u64
    ensures { result ≡ theirs_of pairs.now }
{
    let mut theirs = 0;
    for &pair in pairs {
        theirs += theirs_one(label_in(pair));
    }
    theirs
}

// The first place with a label; behind them all where there is none. 0 is no label.
pub fn place_in(pairs: &[u64], occupied: u64, label: u32) -> usize
    ensures { result ≡ place_in label occupied pairs.now }
{
    if label == 0 {
        return pairs.len();
    }
    let reached = reached(pairs, occupied);
    for i in 0..reached.len() {
        if label_in(reached[i]) == label {
            return i;
        }
    }
    pairs.len()
}

// The discriminator is there in the label's party. Whose it is, is asked only where it is there.
fn has_own(pairs: &[u64], occupied: u64, label: u32, discriminator: u32) -> bool
    ensures { result ≡ any (λ p. eqb (key_in false p) (own_number label discriminator)) (reached occupied pairs.now) }
{
    let reached = reached(pairs, occupied);
    let key = own_key(label, discriminator);
    some_passes(reached, |p| discriminator_in(p) == discriminator)
        && some_passes(reached, |p| own_in(p) == key)
}

// The label was found, or the discriminator is there in its party. Only an opening asks for one.
#[tactic(auto, unfolding(crate::specs::Distinct::rival_in))]
pub fn rival_in(pairs: &[u64], occupied: u64, place: usize, label: u32, discriminator: u32) -> bool
    ensures { result ≡ rival_in pairs.now occupied place label discriminator }
{
    place < pairs.len() || discriminator != 0 && has_own(pairs, occupied, label, discriminator)
}
