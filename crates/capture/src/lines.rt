// Lines, put into a lent buffer. At the buffer's end nothing is put; whoever calls has seen to the
// room.
ghost use Rattle.std.specs.Prelude.{◌≡◌, ◌+◌, ◌*◌, ◌%◌, ◌≤◌, leb, length};
ghost use Rattle.capture.specs.Lines.{digits, decimal, hex_digit, hex, spaced, seven_numbers, answer_text, plain_line, placed_line, report_line, octets_line};
ghost use Rattle.capture.specs.Typing.{pushed, typed};

use rules::Report;

// One octet.
#[tactic(auto, unfolding(crate::specs::Typing::pushed))]
fn push(out: &mut [u8], at: usize, b: u8) -> usize
    ensures { record { buffer = out.new; at = result } ≡ pushed (record { buffer = out.old; at = at }) b }
{
    if at < out.len() {
        out[at] = b;
        at + 1
    } else {
        at
    }
}

// Octets as they are.
#[tactic(auto, using(crate::proofs::Typing::words))]
pub fn put_words(out: &mut [u8], at: usize, words: &[u8]) -> usize
    ensures { record { buffer = out.new; at = result } ≡ typed (record { buffer = out.old; at = at }) words.now }
{
    let mut next = at;
    for b in words {
        next = push(&mut *out, next, *b);
    }
    next
}

// Whether a buffer of that length has room for so many octets at a place.
fn has_room(room: usize, at: usize, octets: usize) -> bool
    ensures { result ≡ leb (at + octets) room }
{
    at <= room && octets <= room - at
}

// How many of a number's last ten digits there are.
fn few_digits(n: u64) -> usize
    ensures { result ≡ length (digits 10 n) }
{
    match n {
        0..=9 => 1,
        10..=99 => 2,
        100..=999 => 3,
        1_000..=9_999 => 4,
        10_000..=99_999 => 5,
        100_000..=999_999 => 6,
        1_000_000..=9_999_999 => 7,
        10_000_000..=99_999_999 => 8,
        100_000_000..=999_999_999 => 9,
        _ => 10,
    }
}

// How many digits a number has.
fn digit_count(n: u64) -> usize
    ensures { result ≡ length (decimal n) }
{
    if n < 10_000_000_000 {
        few_digits(n)
    } else {
        10 + few_digits(n / 10_000_000_000)
    }
}

// A number in decimal, from its last digit back; there is room for its digits.
#[tactic(auto, using(crate::proofs::Digits::back))]
fn fill_digits(out: &mut [u8], at: usize, count: usize, n: u64) -> usize
    requires count_value { count ≡ length (decimal n) }
    requires count_in_bounds { at + count ≤ length out.old }
    ensures { record { buffer = out.new; at = result } ≡ typed (record { buffer = out.old; at = at }) (decimal n) }
{
    let mut rest = n;
    for left in (0..count).rev() {
        out[at + left] = 48 + (rest % 10) as u8;
        rest /= 10;
    }
    at + count
}

// A number whose digits may run over the buffer's end.
fn put_cut_digits(out: &mut [u8], at: usize, count: usize, n: u64) -> usize
    requires { count ≡ length (decimal n) }
    ensures { record { buffer = out.new; at = result } ≡ typed (record { buffer = out.old; at = at }) (decimal n) }
{
    let mut all = [0u8; 20];
    let end = fill_digits(&mut all, 0, count, n);
    put_words(out, at, &all[..end])
}

// A number in decimal.
#[tactic(auto, using(crate::proofs::Digits::one))]
pub fn put_decimal(out: &mut [u8], at: usize, n: u64) -> usize
    ensures { record { buffer = out.new; at = result } ≡ typed (record { buffer = out.old; at = at }) (decimal n) }
{
    if n < 10 {
        return push(out, at, 48 + n as u8);
    }
    let count = digit_count(n);
    if has_room(out.len(), at, count) {
        return fill_digits(out, at, count, n);
    }
    put_cut_digits(out, at, count, n)
}

// A space and a number.
#[tactic(auto, using(crate::proofs::Typing::first_then))]
pub fn put_spaced(out: &mut [u8], at: usize, n: u64) -> usize
    ensures { record { buffer = out.new; at = result } ≡ typed (record { buffer = out.old; at = at }) (spaced n) }
{
    let next = push(&mut *out, at, 32);
    put_decimal(out, next, n)
}

fn hex_digit(d: u8) -> u8
    ensures { result ≡ hex_digit (d % 16) }
{
    let x = d % 16;
    if x < 10 { 48 + x } else { 87 + x }
}

// Octets in hex, in one run; there is room for them.
#[tactic(auto, using(crate::proofs::Typing::hexes))]
fn fill_hex(out: &mut [u8], at: usize, octets: &[u8]) -> usize
    requires { at + 2 * length octets.now ≤ length out.old }
    ensures { record { buffer = out.new; at = result } ≡ typed (record { buffer = out.old; at = at }) (hex octets.now) }
{
    let mut next = at;
    for b in octets {
        out[next] = hex_digit(*b / 16);
        out[next + 1] = hex_digit(*b);
        next += 2;
    }
    next
}

// Octets in hex that may run over the buffer's end.
#[tactic(auto, using(crate::proofs::Typing::hexes))]
fn put_cut_hex(out: &mut [u8], at: usize, octets: &[u8]) -> usize
    ensures { record { buffer = out.new; at = result } ≡ typed (record { buffer = out.old; at = at }) (hex octets.now) }
{
    let mut next = at;
    for b in octets {
        next = push(&mut *out, next, hex_digit(*b / 16));
        next = push(&mut *out, next, hex_digit(*b));
    }
    next
}

// Octets in hex.
fn put_hex(out: &mut [u8], at: usize, octets: &[u8]) -> usize
    ensures { record { buffer = out.new; at = result } ≡ typed (record { buffer = out.old; at = at }) (hex octets.now) }
{
    if has_room(out.len(), at, 2 * octets.len()) {
        fill_hex(out, at, octets)
    } else {
        put_cut_hex(out, at, octets)
    }
}

// The seven numbers of a report, a space before each.
#[tactic(auto, using(crate::proofs::Typing::seven))]
pub fn put_report(out: &mut [u8], at: usize, r: Report) -> usize
    ensures { record { buffer = out.new; at = result } ≡ typed (record { buffer = out.old; at = at }) (seven_numbers r) }
{
    let a = put_spaced(&mut *out, at, r.state as u64);
    let b = put_spaced(&mut *out, a, r.crossing as u64);
    let c = put_spaced(&mut *out, b, r.loss as u64);
    let d = put_spaced(&mut *out, c, r.alarm as u64);
    let e = put_spaced(&mut *out, d, r.rdi as u64);
    let f = put_spaced(&mut *out, e, r.blocked as u64);
    put_spaced(out, f, r.conditions as u64)
}

// The number of a record and its answer.
#[tactic(auto, using(crate::proofs::Typing::then))]
fn put_answer(out: &mut [u8], at: usize, number: u64, answer: u32) -> usize
    ensures { record { buffer = out.new; at = result } ≡ typed (record { buffer = out.old; at = at }) (answer_text number answer) }
{
    let next = put_decimal(&mut *out, at, number);
    put_spaced(out, next, answer as u64)
}

// The line of an answer with nothing behind it.
#[tactic(auto, using(crate::proofs::Typing::parts), unfolding(crate::specs::Lines::plain_line))]
pub fn put_plain(out: &mut [u8], at: usize, number: u64, answer: u32) -> usize
    ensures { record { buffer = out.new; at = result } ≡ typed (record { buffer = out.old; at = at }) (plain_line number answer) }
{
    let next = put_answer(&mut *out, at, number, answer);
    push(out, next, 10)
}

// The line of a refusal and where the message went wrong.
#[tactic(auto, using(crate::proofs::Typing::parts), unfolding(crate::specs::Lines::placed_line))]
pub fn put_placed(out: &mut [u8], at: usize, number: u64, answer: u32, place: usize) -> usize
    ensures { record { buffer = out.new; at = result } ≡ typed (record { buffer = out.old; at = at }) (placed_line number answer place) }
{
    let a = put_answer(&mut *out, at, number, answer);
    let b = put_spaced(&mut *out, a, place as u64);
    push(out, b, 10)
}

// The line of a report.
#[tactic(auto, using(crate::proofs::Typing::parts), unfolding(crate::specs::Lines::report_line))]
pub fn put_reported(out: &mut [u8], at: usize, number: u64, r: Report) -> usize
    ensures { record { buffer = out.new; at = result } ≡ typed (record { buffer = out.old; at = at }) (report_line number r) }
{
    let a = put_answer(&mut *out, at, number, 0);
    let b = put_report(&mut *out, a, r);
    push(out, b, 10)
}

// The line of octets that were written.
#[tactic(auto, using(crate::proofs::Typing::parts), unfolding(crate::specs::Lines::octets_line))]
pub fn put_written(out: &mut [u8], at: usize, number: u64, octets: &[u8]) -> usize
    ensures { record { buffer = out.new; at = result } ≡ typed (record { buffer = out.old; at = at }) (octets_line number octets.now) }
{
    let a = put_answer(&mut *out, at, number, 0);
    let b = push(&mut *out, a, 32);
    let c = put_hex(&mut *out, b, octets);
    push(out, c, 10)
}
