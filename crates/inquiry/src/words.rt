// The text of an answer, part by part.
ghost use Rattle.std.specs.Prelude.{◌≡◌, cond, [], ◌∷◌, ◌++◌, ◌+◌, ◌%◌, eqb};
ghost use Rattle.message.specs.Message.{message_of};
ghost use Rattle.capture.specs.Lines.{decimal};
ghost use Rattle.capture.specs.Typing.{typed};
ghost use Rattle.octets.specs.Refusals.{number_of};
ghost use Rattle.cause.specs.FromMarks.{cause_from};
ghost use Rattle.trace.specs.Asking.{found_in};
ghost use Rattle.inquiry.specs.Vocabulary.{w_slash, w_from, w_cv, w_your, w_ends_at, w_stood, w_not_open, w_is_not_open, w_ais, w_lkr, w_link_down, w_interface, w_global, w_bad_header, w_usage, w_line};
ghost use Rattle.inquiry.specs.Words.{pair_words, mep_words, message_words, only_if, padded, seconds, which_front, which_line, age_line, end_line, absent_words, refused_line, telling, cut_line};
ghost use Rattle.inquiry.specs.Telling.{timed_words_by, place_words, words_from, telling_from};

// Each puts its words behind those that are there and says where they end: buffer and place stay two parameters, as `typed`
// and `capture`'s own functions take them.
use capture::{put_decimal, put_words};
use cause::{Cause, Marks, Thing};
use conditions::Condition;
use cv::MepId;
use gach::{CC_CHANNEL, CV_CHANNEL};
use octets::{Refusal, get_u16, get_u32};
use rules::Key;
use session::Session;
use trace::Found;

// The last digit of a number.
#[tactic(auto, using(crate::proofs::Putting::digit_put))]
fn put_digit(out: &mut [u8], at: usize, n: u64) -> usize
    ensures { record { buffer = out.new; at = result } ≡ typed (record { buffer = out.old; at = at }) ((48 + n % 10) ∷ []) }
{
    put_decimal(out, at, n % 10)
}

// Its last six, noughts among them.
#[tactic(auto, using(crate::proofs::Putting::parts), unfolding(crate::specs::Words::padded))]
fn put_six(out: &mut [u8], at: usize, n: u64) -> usize
    ensures { record { buffer = out.new; at = result } ≡ typed (record { buffer = out.old; at = at }) (padded 6 n) }
{
    let e = n / 10;
    let d = e / 10;
    let c = d / 10;
    let b = c / 10;
    let a = put_digit(&mut *out, at, b / 10);
    let f = put_digit(&mut *out, a, b);
    let g = put_digit(&mut *out, f, c);
    let h = put_digit(&mut *out, g, d);
    let i = put_digit(&mut *out, h, e);
    put_digit(out, i, n)
}

// Microseconds as seconds.
#[tactic(auto, using(crate::proofs::Putting::parts))]
fn put_seconds(out: &mut [u8], at: usize, n: u64) -> usize
    ensures { record { buffer = out.new; at = result } ≡ typed (record { buffer = out.old; at = at }) (seconds n) }
{
    let a = put_decimal(&mut *out, at, n / 1_000_000);
    let b = put_words(&mut *out, a, b".");
    let c = put_six(&mut *out, b, n % 1_000_000);
    put_words(out, c, b" s")
}

#[tactic(auto, using(crate::proofs::Putting::parts))]
fn put_pair(out: &mut [u8], at: usize, a: u32, b: u32) -> usize
    ensures { record { buffer = out.new; at = result } ≡ typed (record { buffer = out.old; at = at }) (pair_words a b) }
{
    let c = put_decimal(&mut *out, at, a as u64);
    let d = put_words(&mut *out, c, b"/");
    put_decimal(out, d, b as u64)
}

// What a MEP-ID is of, its Global_ID and Node.
#[tactic(auto, using(crate::proofs::Putting::parts))]
fn put_node(out: &mut [u8], at: usize, name: &[u8], id: MepId) -> usize
    ensures { record { buffer = out.new; at = result } ≡ typed (record { buffer = out.old; at = at }) (name.now ++ pair_words id.global id.node ++ w_slash) }
{
    let a = put_words(&mut *out, at, name);
    let b = put_pair(&mut *out, a, id.global, id.node);
    put_words(out, b, b"/")
}

// A MEP-ID; of an LSP tunnel and LSP number stand in one.
#[tactic(auto, using(crate::proofs::Putting::parts), unfolding(crate::specs::Words::mep_words))]
fn put_mep(out: &mut [u8], at: usize, id: MepId) -> usize
    ensures { record { buffer = out.new; at = result } ≡ typed (record { buffer = out.old; at = at }) (mep_words id) }
{
    match id.kind {
        0 => {
            let a = put_node(&mut *out, at, b"Section ", id);
            put_decimal(out, a, id.local as u64)
        }
        1 => {
            let b = put_node(&mut *out, at, b"LSP ", id);
            put_pair(out, b, id.local / 65536, id.local % 65536)
        }
        _ => {
            let c = put_node(&mut *out, at, b"pseudowire ", id);
            put_decimal(out, c, id.local as u64)
        }
    }
}

#[tactic(auto, using(crate::proofs::Putting::parts))]
fn put_cv(out: &mut [u8], at: usize, your: u32, id: MepId) -> usize
    ensures { record { buffer = out.new; at = result } ≡ typed (record { buffer = out.old; at = at }) (w_cv ++ w_your ++ decimal your ++ w_from ++ mep_words id) }
{
    let a = put_words(&mut *out, at, b"CV, Your ");
    let b = put_decimal(&mut *out, a, your as u64);
    let c = put_words(&mut *out, b, b", from ");
    put_mep(out, c, id)
}

// A crossed message, by its channel.
#[tactic(auto, using(capture::proofs::Typing::words), unfolding(crate::specs::Words::message_words, message::specs::Message::message_of))]
fn put_message(out: &mut [u8], at: usize, m: &[u8]) -> usize
    ensures { record { buffer = out.new; at = result } ≡ typed (record { buffer = out.old; at = at }) (message_words (message_of m.now)) }
{
    let your = get_u32(m, 12);
    match get_u16(m, 2) {
        CC_CHANNEL => {
            let a = put_words(&mut *out, at, b"CC, Your ");
            put_decimal(out, a, your as u64)
        }
        CV_CHANNEL => put_cv(out, at, your, cv::mep_id_at(cv::mep_part(m), 0)),
        _ => at,
    }
}

fn put_fault_kind(out: &mut [u8], at: usize, kind: u8) -> usize
    ensures { record { buffer = out.new; at = result } ≡ typed (record { buffer = out.old; at = at }) (cond (eqb kind 1) w_ais w_lkr) }
{
    if kind == 1 {
        put_words(out, at, b"AIS")
    } else {
        put_words(out, at, b"LKR")
    }
}

#[tactic(auto, using(capture::proofs::Typing::words))]
fn put_link_down(out: &mut [u8], at: usize, linkdown: u8) -> usize
    ensures { record { buffer = out.new; at = result } ≡ typed (record { buffer = out.old; at = at }) (only_if (eqb linkdown 1) w_link_down) }
{
    if linkdown == 1 {
        put_words(out, at, b", L")
    } else {
        at
    }
}

#[tactic(auto, using(crate::proofs::Putting::parts))]
fn put_interface(out: &mut [u8], at: usize, key: Key) -> usize
    ensures { record { buffer = out.new; at = result } ≡ typed (record { buffer = out.old; at = at }) (only_if (eqb key.present 1) (w_interface ++ pair_words key.node key.interface)) }
{
    if key.present == 1 {
        let a = put_words(&mut *out, at, b", interface ");
        return put_pair(out, a, key.node, key.interface);
    }
    at
}

#[tactic(auto, using(crate::proofs::Putting::parts))]
fn put_global(out: &mut [u8], at: usize, key: Key) -> usize
    ensures { record { buffer = out.new; at = result } ≡ typed (record { buffer = out.old; at = at }) (only_if (eqb key.carrier 1) (w_global ++ decimal key.global)) }
{
    if key.carrier == 1 {
        let a = put_words(&mut *out, at, b", Global_ID ");
        return put_decimal(out, a, key.global as u64);
    }
    at
}

// A fault message: type, refresh and L, and the rest of its key.
#[tactic(auto, using(crate::proofs::Putting::parts), unfolding(crate::specs::Words::condition_words))]
fn put_condition(out: &mut [u8], at: usize, c: Condition) -> usize
    ensures { record { buffer = out.new; at = result } ≡ typed (record { buffer = out.old; at = at }) (place_words c) }
{
    let key = c.key;
    let a = put_fault_kind(&mut *out, at, key.kind);
    let b = put_words(&mut *out, a, b", refresh ");
    let d = put_decimal(&mut *out, b, c.refresh as u64);
    let e = put_words(&mut *out, d, b" s");
    let f = put_link_down(&mut *out, e, c.linkdown);
    let g = put_interface(&mut *out, f, key);
    put_global(out, g, key)
}

fn put_timed(out: &mut [u8], at: usize, by: u8) -> usize
    ensures { record { buffer = out.new; at = result } ≡ typed (record { buffer = out.old; at = at }) (timed_words_by by) }
{
    match by {
        0 => put_words(out, at, b"opening"),
        1 => put_words(out, at, b"unlock"),
        2 => put_words(out, at, b"CC"),
        _ => put_words(out, at, b"CV"),
    }
}

// The first line up to what the record was.
#[tactic(auto, using(crate::proofs::Putting::parts))]
fn put_which(out: &mut [u8], at: usize, number: u64, reading: u64) -> usize
    ensures { record { buffer = out.new; at = result } ≡ typed (record { buffer = out.old; at = at }) (which_front number reading) }
{
    let a = put_words(&mut *out, at, b"which: record ");
    let b = put_decimal(&mut *out, a, number);
    let c = put_words(&mut *out, b, b" at ");
    let d = put_decimal(&mut *out, c, reading);
    put_words(out, d, b", ")
}

#[tactic(auto, using(crate::proofs::Putting::parts))]
fn put_age(out: &mut [u8], at: usize, age: u64) -> usize
    ensures { record { buffer = out.new; at = result } ≡ typed (record { buffer = out.old; at = at }) (age_line age) }
{
    let a = put_words(&mut *out, at, b"how old: ");
    let b = put_seconds(&mut *out, a, age);
    put_words(out, b, b"\n")
}

#[tactic(auto, using(crate::proofs::Putting::parts))]
fn put_end_at(out: &mut [u8], at: usize, end: u64, words: &[u8]) -> usize
    ensures { record { buffer = out.new; at = result } ≡ typed (record { buffer = out.old; at = at }) (w_ends_at ++ decimal end ++ words.now ++ w_line) }
{
    let a = put_words(&mut *out, at, b"ends: at ");
    let b = put_decimal(&mut *out, a, end);
    let c = put_words(&mut *out, b, words);
    put_words(out, c, b"\n")
}

#[tactic(auto, using(crate::proofs::Putting::parts))]
fn put_stood(out: &mut [u8], at: usize, from: u64) -> usize
    ensures { record { buffer = out.new; at = result } ≡ typed (record { buffer = out.old; at = at }) (w_stood ++ decimal from ++ w_line) }
{
    let a = put_words(
        &mut *out,
        at,
        b"ends: at the next CC or CV heard, a lock or a close; stood from ",
    );
    let b = put_decimal(&mut *out, a, from);
    put_words(out, b, b"\n")
}

// What ends it; of a loss from when on it stood.
fn put_end(out: &mut [u8], at: usize, thing: Thing, end: u64) -> usize
    ensures { record { buffer = out.new; at = result } ≡ typed (record { buffer = out.old; at = at }) (end_line thing end) }
{
    match thing {
        Thing::Crossing => put_end_at(out, at, end, b", unless another crossed message comes"),
        Thing::Loss => put_stood(out, at, end),
        Thing::Condition(_) => put_end_at(out, at, end, b", or at a message of this key with R"),
        Thing::HeldBack => put_end_at(out, at, end, b", or when the loss ends"),
    }
}

fn put_absent(out: &mut [u8], at: usize, thing: Thing) -> usize
    ensures { record { buffer = out.new; at = result } ≡ typed (record { buffer = out.old; at = at }) (absent_words thing ++ w_line) }
{
    match thing {
        Thing::Crossing => put_words(out, at, b"refused 15: no crossing stands\n"),
        Thing::Loss => put_words(out, at, b"refused 15: no loss stands\n"),
        Thing::Condition(_) => put_words(out, at, b"refused 15: this condition does not stand\n"),
        Thing::HeldBack => put_words(out, at, b"refused 15: no alarm is held back\n"),
    }
}

#[tactic(auto, using(crate::proofs::Putting::parts))]
fn put_not_open(out: &mut [u8], at: usize, label: u32) -> usize
    ensures { record { buffer = out.new; at = result } ≡ typed (record { buffer = out.old; at = at }) (w_not_open ++ decimal label ++ w_is_not_open ++ w_line) }
{
    let a = put_words(&mut *out, at, b"refused 2: label ");
    let b = put_decimal(&mut *out, a, label as u64);
    let c = put_words(&mut *out, b, b" is not open");
    put_words(out, c, b"\n")
}

// A refusal: 2, else 15.
fn put_refused(out: &mut [u8], at: usize, refusal: Refusal, label: u32, thing: Thing) -> usize
    ensures { record { buffer = out.new; at = result } ≡ typed (record { buffer = out.old; at = at }) (refused_line (number_of refusal) label thing) }
{
    match refusal {
        Refusal::NotOpen => put_not_open(out, at, label),
        _ => put_absent(out, at, thing),
    }
}

// What a session is asked about: the label and the thing, the marks, the clock, and what is kept of its
// last crossed message.
#[derive(Clone, Copy)]
pub struct About<'a> {
    pub label: u32,
    pub thing: Thing,
    pub marks: Marks,
    pub clock: u64,
    pub kept: &'a [u8],
}

// What the record was that is named, from the session's record too.
#[tactic(auto, unfolding(crate::specs::Telling::words_from))]
fn put_reason(out: &mut [u8], at: usize, x: About<'_>, r: Session) -> usize
    ensures { record { buffer = out.new; at = result } ≡ typed (record { buffer = out.old; at = at }) (words_from x.entry.marks r x.entry.clock x.entry.kept.now x.entry.thing) }
{
    match x.thing {
        Thing::Crossing => put_message(out, at, octets::part(x.kept, 0, x.marks.size)),
        Thing::Loss => put_timed(out, at, x.marks.by),
        Thing::Condition(key) => {
            let named = cause::best_of_key(x.marks, r.conditions, x.clock, key);
            put_condition(out, at, named.place)
        }
        Thing::HeldBack => {
            let held = cause::best_standing(x.marks, r.conditions, x.clock);
            put_condition(out, at, held.place)
        }
    }
}

// The three lines.
#[tactic(auto, using(crate::proofs::Putting::parts))]
fn put_because(out: &mut [u8], at: usize, c: Cause, x: About<'_>, r: Session) -> usize
    ensures { record { buffer = out.new; at = result } ≡ typed (record { buffer = out.old; at = at }) (which_line c (words_from x.entry.marks r x.entry.clock x.entry.kept.now x.entry.thing) ++ age_line c.age ++ end_line x.entry.thing c.end) }
{
    let a = put_which(&mut *out, at, c.number, c.reading);
    let b = put_reason(&mut *out, a, x, r);
    let d = put_words(&mut *out, b, b"\n");
    let e = put_age(&mut *out, d, c.age);
    put_end(out, e, x.thing, c.end)
}

// Of an open session.
#[tactic(auto, unfolding(crate::specs::Words::telling))]
fn put_answer(out: &mut [u8], at: usize, x: About<'_>, r: Session) -> usize
    ensures { record { buffer = out.new; at = result } ≡ typed (record { buffer = out.old; at = at }) (telling (cause_from x.entry.marks r x.entry.clock x.entry.thing) (words_from x.entry.marks r x.entry.clock x.entry.kept.now x.entry.thing) x.entry.label x.entry.thing) }
{
    match cause::cause_from(x.marks, r, x.clock, x.thing) {
        Ok(c) => put_because(out, at, c, x, r),
        Err(refusal) => put_refused(out, at, refusal, x.label, x.thing),
    }
}

// The text of the answer.
#[tactic(auto, unfolding(crate::specs::Telling::telling_from, crate::specs::Words::telling))]
pub fn put_telling(out: &mut [u8], at: usize, f: Found, x: About<'_>) -> usize
    ensures { record { buffer = out.new; at = result } ≡ typed (record { buffer = out.old; at = at }) (telling_from x.entry.marks (found_in f) x.entry.clock x.entry.kept.now x.entry.label x.entry.thing) }
{
    if f.there {
        put_answer(out, at, x, f.session)
    } else {
        put_refused(out, at, Refusal::NotOpen, x.label, x.thing)
    }
}

// A capture that is cut behind that many records.
#[tactic(auto, using(crate::proofs::Putting::parts))]
pub fn put_cut(out: &mut [u8], at: usize, number: u64) -> usize
    ensures { record { buffer = out.new; at = result } ≡ typed (record { buffer = out.old; at = at }) (cut_line number) }
{
    let a = put_words(&mut *out, at, b"capture: cut behind record ");
    let b = put_decimal(&mut *out, a, number);
    put_words(out, b, b"\n")
}

pub fn put_bad_header(out: &mut [u8], at: usize) -> usize
    ensures { record { buffer = out.new; at = result } ≡ typed (record { buffer = out.old; at = at }) (w_bad_header ++ w_line) }
{
    put_words(out, at, b"capture: bad header\n")
}

// Words that are no question.
pub fn put_usage(out: &mut [u8], at: usize) -> usize
    ensures { record { buffer = out.new; at = result } ≡ typed (record { buffer = out.old; at = at }) (w_usage ++ w_line) }
{
    put_words(
        out,
        at,
        b"usage: why LABEL crossing|loss|held-back|ais|lkr [if=NODE/INTERFACE] [global=ID] [upto=RECORD] < capture\n",
    )
}
