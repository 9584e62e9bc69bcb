// What a line asks, and the answer from the index of the label that it asks about, as text.
use call_log::{Answer, at_start, read_to};
use capture::{get_at, put_report, put_spaced};
use indexing::{IndexHead, answer_at, ask_refusal, begin_fill, fill_numbers};
use session::Session;
use stored::put_text;

// No reading is past this.
const NEVER: u64 = 18_446_744_073_709_551_615;

// One digit more; 0 where that is more than 64 bits hold.
fn one_more(n: u64, digit: u8) -> u64 {
    if n > 1_844_674_407_370_955_160 {
        return 0;
    }
    n * 10 + (digit % 16 % 10) as u64
}

// The number in decimal that a line begins with, and what stands behind the octet that ends it.
pub(crate) fn first_number(line: &[u8]) -> (u64, &[u8]) {
    let end = line
        .iter()
        .position(|b| !b.is_ascii_digit())
        .unwrap_or(line.len());
    let mut value: u64 = 0;
    for &digit in octets::part(line, 0, end) {
        value = one_more(value, digit);
    }
    (value, octets::from_place(octets::from_place(line, end), 1))
}

// A label has 32 bits.
pub(crate) fn label_of(value: u64) -> u32 {
    u32::try_from(value).unwrap_or(0)
}

// The record of an entry: what the 256 records for each entry before it leave of the label's.
fn record_of(log: &[u8], label: u32, entry: usize) -> Session {
    let most = entry.min(256) * 256;
    let e = read_to(octets::from_place(log, 8), label, at_start(), most, NEVER);
    e.point.session
}

// 0, the report and the looks, or the number of the refusal.
fn put_answer(out: &mut [u8], a: Answer) -> usize {
    let n = put_text(&mut *out, 0, b"=>");
    let end = match a {
        Ok(told) => {
            let b = put_spaced(&mut *out, n, 0);
            let c = put_report(&mut *out, b, told.report);
            put_spaced(&mut *out, c, told.looked as u64)
        }
        Err(refusal) => put_spaced(&mut *out, n, u32::from(refusal) as u64),
    };
    put_text(out, end, b"\n")
}

// The answer from an index of so many entries. The index has room for the entries of every log. Its records are not kept:
// that of the entry which is used is read from the log.
fn answer_of(log: &[u8], label: u32, reading: u64) -> Answer {
    let mut clocks = [0u64; 256];
    let mut places = [0u64; 256];
    let from = begin_fill(log, label, 256)?;
    fill_numbers(&mut clocks, &mut places, from, log);
    let entries = from.count.min(256);
    let head = IndexHead {
        length: log.len() as u64,
        label,
        count: entries as u32,
    };
    ask_refusal(log, head, label, reading, 256)?;
    let f = halving::find(&clocks, entries, reading);
    let s = record_of(log, label, f.place);
    let place = get_at(&places, f.place, 0) as usize;
    let clock = get_at(&clocks, f.place, 0);
    answer_at(log, place, s, clock, label, reading, f.looked)
}

pub(crate) fn text_of(log: &[u8], label: u32, reading: u64, out: &mut [u8]) -> usize {
    put_answer(out, answer_of(log, label, reading))
}
