// What is written: a comment that says the answer in words and, of an accepted record, the line of the
// sessions file.
use crate::words::Words;
use capture::{put_decimal, put_words};
use configuration::Offer;
use octets::Refusal;

// The argument at a place, or what stands for one that is not there.
fn put_argument(
    rt: HostRuntime,
    out: &mut [u8],
    at: usize,
    i: Option<usize>,
    missing: &[u8],
) -> usize {
    let Some(i) = i else {
        return put_words(out, at, missing);
    };
    let mut word = [0u8; 128];
    let n = arguments::argument(rt, i, &mut word).unwrap_or(0);
    put_words(out, at, pump::part(&word, 0, n))
}

// The argument at a place at the end of the line, behind a blank; the setting and the words that have a
// place of their own are not copied there.
fn put_one(rt: HostRuntime, out: &mut [u8], at: usize, w: Words, i: usize) -> usize {
    let mut buf = [0u8; 128];
    let n = arguments::argument(rt, i, &mut buf).unwrap_or(0);
    let word = pump::part(&buf, 0, n);
    if w.has_place(i) || word.starts_with(b"authentication=") {
        return at;
    }
    let a = put_words(&mut *out, at, b" ");
    put_words(out, a, word)
}

// The words behind the period, as they stand among the arguments.
fn put_further(rt: HostRuntime, out: &mut [u8], at: usize, w: Words) -> usize {
    let mut next = at;
    for i in 1..arguments::count(rt) {
        next = put_one(rt, &mut *out, next, w, i);
    }
    next
}

// Name, label and our discriminator.
fn put_circuit(rt: HostRuntime, out: &mut [u8], at: usize, w: Words, discriminator: u32) -> usize {
    let a = put_argument(rt, &mut *out, at, w.name, b"?");
    let b = put_words(&mut *out, a, b" ");
    let c = put_argument(rt, &mut *out, b, w.label, b"label=?");
    let d = put_words(&mut *out, c, b" my=");
    put_decimal(out, d, discriminator as u64)
}

// The MEP-IDs of both ends, and the period.
fn put_ends(rt: HostRuntime, out: &mut [u8], at: usize, w: Words, period: u32) -> usize {
    let a = put_words(&mut *out, at, b" ");
    let b = put_argument(rt, &mut *out, a, w.own, b"own=?");
    let c = put_words(&mut *out, b, b" ");
    let d = put_argument(rt, &mut *out, c, w.expected, b"expected=?");
    let e = put_words(&mut *out, d, b" period=");
    put_decimal(out, e, period as u64)
}

fn put_session(
    rt: HostRuntime,
    out: &mut [u8],
    at: usize,
    w: Words,
    discriminator: u32,
    period: u32,
) -> usize {
    let a = put_circuit(rt, &mut *out, at, w, discriminator);
    let b = put_ends(rt, &mut *out, a, w, period);
    let c = put_further(rt, &mut *out, b, w);
    put_words(out, c, b"\n")
}

fn put_read(rt: HostRuntime, out: &mut [u8], w: Words, discriminator: u32, period: u32) -> usize {
    let a = put_words(&mut *out, 0, b"# accepted: discriminator ");
    let b = put_decimal(&mut *out, a, discriminator as u64);
    let c = put_words(&mut *out, b, b", period ");
    let d = put_decimal(&mut *out, c, period as u64);
    let e = put_words(&mut *out, d, b" microseconds\n");
    put_session(rt, out, e, w, discriminator, period)
}

fn reason_of(refusal: Refusal, authentication: u16) -> &'static [u8] {
    match (refusal, authentication) {
        (Refusal::PastHolder, _) => b"an entry, padding included, runs past its holder's end\n",
        (Refusal::WrongLength, _) => b"a known entry has a length that its layout does not allow\n",
        (Refusal::NotOnce, _) => b"a needed entry is missing or there twice\n",
        (_, 1 | 2) => b"authentication= names a type that another entry has\n",
        _ => b"the discriminator is 0, or the period not 1000 to 10000000\n",
    }
}

fn put_refused(out: &mut [u8], refusal: Refusal, authentication: u16) -> usize {
    let a = put_words(&mut *out, 0, b"# refused ");
    let b = put_decimal(&mut *out, a, u32::from(refusal) as u64);
    let c = put_words(&mut *out, b, b": ");
    put_words(out, c, reason_of(refusal, authentication))
}

pub(crate) fn put_answer(
    rt: HostRuntime,
    out: &mut [u8],
    w: Words,
    a: Result<Offer, Refusal>,
) -> usize {
    match a {
        Ok(offer) => put_read(rt, out, w, offer.discriminator, offer.period),
        Err(refusal) => put_refused(out, refusal, w.type_in_use()),
    }
}

pub(crate) fn put_too_long(out: &mut [u8]) -> usize {
    put_words(out, 0, b"# not read: more than 131072 octets\n")
}

pub(crate) fn put_usage(out: &mut [u8]) -> usize {
    let a = put_words(
        &mut *out,
        0,
        b"usage: provision [NAME] [label=N] [own=ID] [expected=ID] ",
    );
    put_words(out, a, b"[WORD=VALUE ..] [authentication=N] < records\n")
}
