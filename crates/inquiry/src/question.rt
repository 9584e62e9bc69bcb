// The question from the program's arguments, word by word: the label, what is asked about, and what
// may stand behind that in any order.
ghost use Rattle.std.specs.Prelude.{◌≡◌, true, ◌&&◌, ◌+◌, ◌*◌, eqb, ltb};
ghost use Rattle.inquiry.specs.Questions.{is_digit, within, numbered, numeral, small, slash_at, is_word, no_question, no_such, label_taken, thing_taken, key_kind, key_anew, kind_of, interface_taken, global_taken, upto_taken, option_taken, word_taken, is_asked, thing_of, question_in};

use cause::Thing;
use octets::{from_place, part};
use rules::Key;

// What the words have asked so far: about which label, about what (0 not said yet, 1 crossing, 2 loss,
// 3 held back, 4 AIS, 5 LKR), of AIS and LKR with which key, up to which record, and whether that was
// said. Not good: these words are no question. Marks and no `Option`s: what is promised of one holds
// whatever the others are.
#[derive(Clone, Copy)]
pub struct Question {
    pub key: Key,
    pub upto: u64,
    pub label: u32,
    pub kind: u8,
    pub labelled: bool,
    pub bounded: bool,
    pub good: bool,
}

// ---- a number
fn is_digit(d: u8) -> bool
    ensures { result ≡ is_digit d }
{
    d > 47 && d < 58
}

// One digit more, where the number stays within the greatest.
fn one_more(n: u64, digit: u64, most: u64) -> Option<u64>
    ensures { numbered result ≡ within most (n * 10 + digit) }
{
    let next = n.checked_mul(10)?.checked_add(digit)?;
    if next <= most { Some(next) } else { None }
}

// Digits alone, and at least one.
pub fn number_in(s: &[u8], most: u64) -> Option<u64>
    ensures { numbered result ≡ numeral most s.now }
{
    if s.is_empty() {
        return None;
    }
    let mut n: u64 = 0;
    for &d in s {
        if !is_digit(d) {
            return None;
        }
        n = one_more(n, (d - 48) as u64, most)?;
    }
    Some(n)
}

fn small_in(s: &[u8]) -> Option<u32>
    ensures { numbered result ≡ small s.now }
{
    let n = number_in(s, 4_294_967_295)?;
    Some(n as u32)
}

// ---- words
// The place of the first slash, and the end where there is none.
fn slash_at(s: &[u8]) -> usize
    ensures { result ≡ slash_at s.now }
{
    s.iter().position(|&b| b == 47).unwrap_or(s.len())
}

#[tactic(auto, using(crate::proofs::Reading::word_is))]
fn is_word(w: &[u8], word: &[u8]) -> bool
    ensures { result ≡ is_word word.now w.now }
{
    w == word
}

// ---- what is asked
// The type of a condition's key.
fn key_kind(kind: u8) -> u8
    ensures { result ≡ key_kind kind }
{
    match kind {
        4 => 1,
        5 => 2,
        _ => 0,
    }
}

// A key for a thing, of which nothing is named yet.
fn key_anew(kind: u8) -> Key
    ensures { result ≡ key_anew kind }
{
    Key {
        node: 0,
        interface: 0,
        global: 0,
        kind: key_kind(kind),
        present: 0,
        carrier: 0,
    }
}

// Nothing is asked yet.
pub fn no_question() -> Question
    ensures { result ≡ no_question }
{
    Question {
        key: key_anew(0),
        upto: u64::MAX,
        label: 0,
        kind: 0,
        labelled: false,
        bounded: false,
        good: true,
    }
}

// Words that are no question.
fn no_such() -> Question
    ensures { result ≡ no_such }
{
    Question {
        upto: 0,
        good: false,
        ..no_question()
    }
}

// The first word. From here on none stands for words that are no question.
#[tactic(auto, unfolding(crate::specs::Questions::label_taken))]
fn take_label(q: Question, w: &[u8]) -> Option<Question>
    ensures { question_in result ≡ label_taken q w.now }
{
    let label = small_in(w)?;
    Some(Question {
        label,
        labelled: true,
        ..q
    })
}

#[tactic(auto, unfolding(crate::specs::Questions::kind_of))]
fn kind_of(w: &[u8]) -> u8
    ensures { result ≡ kind_of w.now }
{
    if is_word(w, b"crossing") {
        return 1;
    }
    if is_word(w, b"loss") {
        return 2;
    }
    if is_word(w, b"held-back") {
        return 3;
    }
    if is_word(w, b"ais") {
        return 4;
    }
    if is_word(w, b"lkr") {
        return 5;
    }
    0
}

// The second word.
#[tactic(auto, unfolding(crate::specs::Questions::thing_taken))]
fn take_thing(q: Question, w: &[u8]) -> Option<Question>
    ensures { question_in result ≡ thing_taken q w.now }
{
    let kind = kind_of(w);
    if kind == 0 {
        return None;
    }
    Some(Question {
        key: key_anew(kind),
        kind,
        ..q
    })
}

// A part of a key is named once, and of a condition alone.
fn is_free(kind: u8, mark: u8) -> bool
    ensures { result ≡ ltb 0 kind && eqb mark 0 }
{
    kind > 0 && mark == 0
}

// What stands behind `if=`.
#[tactic(auto, unfolding(crate::specs::Questions::interface_taken))]
fn take_interface(q: Question, s: &[u8]) -> Option<Question>
    ensures { question_in result ≡ interface_taken q s.now }
{
    let at = slash_at(s);
    let node = small_in(part(s, 0, at))?;
    let interface = small_in(from_place(from_place(s, at), 1))?;
    if !is_free(q.key.kind, q.key.present) {
        return None;
    }
    let key = Key {
        node,
        interface,
        present: 1,
        ..q.key
    };
    Some(Question { key, ..q })
}

// What stands behind `global=`.
#[tactic(auto, unfolding(crate::specs::Questions::global_taken))]
fn take_global(q: Question, s: &[u8]) -> Option<Question>
    ensures { question_in result ≡ global_taken q s.now }
{
    let global = small_in(s)?;
    if !is_free(q.key.kind, q.key.carrier) {
        return None;
    }
    let key = Key {
        global,
        carrier: 1,
        ..q.key
    };
    Some(Question { key, ..q })
}

// What stands behind `upto=`.
#[tactic(auto, unfolding(crate::specs::Questions::upto_taken))]
fn take_upto(q: Question, s: &[u8]) -> Option<Question>
    ensures { question_in result ≡ upto_taken q s.now }
{
    let upto = number_in(s, u64::MAX)?;
    if q.bounded {
        return None;
    }
    Some(Question {
        upto,
        bounded: true,
        ..q
    })
}

// A word behind the first two.
fn take_option(q: Question, w: &[u8]) -> Option<Question>
    ensures { question_in result ≡ option_taken q w.now }
{
    if let Some(s) = w.strip_prefix(b"if=") {
        return take_interface(q, s);
    }
    if let Some(s) = w.strip_prefix(b"global=") {
        return take_global(q, s);
    }
    if let Some(s) = w.strip_prefix(b"upto=") {
        return take_upto(q, s);
    }
    None
}

// What is asked with one word more.
#[tactic(auto, using(crate::proofs::Reading::taken))]
fn taken(q: Question, w: &[u8]) -> Option<Question>
    requires { q.good ≡ true }
    ensures { question_in result ≡ word_taken q w.now }
{
    match (q.labelled, q.kind) {
        (false, _) => take_label(q, w),
        (true, 0) => take_thing(q, w),
        (true, _) => take_option(q, w),
    }
}

// One word more.
#[tactic(auto, using(crate::proofs::Reading::word_kept))]
pub fn take_word(q: Question, w: &[u8]) -> Question
    ensures { result ≡ word_taken q w.now }
{
    if !q.good {
        return q;
    }
    taken(q, w).unwrap_or(no_such())
}

// ---- a question
// The words are one: the first two were there, and each that came belongs there.
pub fn is_asked(q: Question) -> bool
    ensures { result ≡ is_asked q }
{
    q.good && q.kind > 0
}

// About which label.
pub fn label_of(q: Question) -> u32
    ensures { result ≡ q.label }
{
    q.label
}

// What is asked about.
#[tactic(auto, unfolding(crate::specs::Questions::thing_of))]
pub fn thing_of(q: Question) -> Thing
    ensures { result ≡ thing_of q }
{
    match q.kind {
        1 => Thing::Crossing,
        2 => Thing::Loss,
        3 => Thing::HeldBack,
        _ => Thing::Condition(q.key),
    }
}

// At the end of how many records; of all, as long as `upto=` does not say otherwise.
pub fn upto_of(q: Question) -> u64
    ensures { result ≡ q.upto }
{
    q.upto
}
