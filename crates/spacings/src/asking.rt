// A line of what is asked, and a capture gauged for it in pieces, as if its octets came one piece after
// the other.
use gauge::Gauge;
use stored::put_text;

// What a line asks: for a label, of its first records alone where their number is there, and the line
// that is to come.
#[derive(Clone, Copy)]
pub(crate) struct Asked<'a> {
    pub(crate) records: Option<u32>,
    pub(crate) label: u32,
    pub(crate) wanted: &'a [u8],
}

// The word before the first space of a line, and what stands from that space on.
fn first_word(line: &[u8]) -> (&[u8], &[u8]) {
    let end = line.iter().position(|&b| b == b' ').unwrap_or(line.len());
    (octets::part(line, 0, end), octets::from_place(line, end))
}

// The number that a word is.
fn number_of(word: &[u8]) -> u32 {
    inquiry::label_of(inquiry::take_word(inquiry::no_question(), word))
}

// One word and ` => `, or two.
pub(crate) fn asked_in(line: &[u8]) -> Asked<'_> {
    let (first, rest) = first_word(line);
    if let Some(wanted) = rest.strip_prefix(b" => ") {
        return Asked {
            records: None,
            label: number_of(first),
            wanted,
        };
    }
    let (second, rest) = first_word(octets::from_place(rest, 1));
    Asked {
        records: Some(number_of(first)),
        label: number_of(second),
        wanted: octets::from_place(rest, 4),
    }
}

// The header and so many records.
pub(crate) fn front_of(capture: &[u8], records: u32) -> &[u8] {
    let mut at: usize = 8;
    for _record in 0..records {
        at = feed::behind(capture.len(), at, capture::record_at(capture, at).size);
    }
    octets::part(capture, 0, at)
}

// Each piece is put behind the octets that are there.
fn gauged(label: u32, capture: &[u8], size: usize, buf: &mut [u8]) -> Gauge {
    let mut g = gauge::start(label);
    for piece in capture.chunks(size.max(1)) {
        put_text(&mut *buf, g.have, piece);
        g = gauge::got(g, piece.len(), &mut *buf);
    }
    g
}

// The line for a label.
pub(crate) fn line_of(label: u32, capture: &[u8], size: usize, out: &mut [u8]) -> usize {
    let mut buf = [0u8; 65_536];
    let g = gauged(label, capture, size, &mut buf);
    gauge::put_text(out, g)
}
