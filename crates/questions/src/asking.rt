// A question from its words, and a capture searched for it in pieces, as if its octets came one piece
// after the other.
use inquiry::{Question, Search};
use stored::put_text;

// The words of a line, apart by one space.
pub(crate) fn question_of(line: &[u8]) -> Question {
    let mut q = inquiry::no_question();
    for word in line.split(|&b| b == b' ') {
        q = inquiry::take_word(q, word);
    }
    q
}

// Each piece is put behind the octets that are there.
fn searched(q: Question, capture: &[u8], size: usize, buf: &mut [u8], kept: &mut [u8]) -> Search {
    let mut s = inquiry::start(inquiry::label_of(q), inquiry::upto_of(q));
    for piece in capture.chunks(size.max(1)) {
        put_text(&mut *buf, s.have, piece);
        s = inquiry::got(s, piece.len(), &mut *buf, &mut *kept);
    }
    inquiry::ended(s)
}

// The text that a question has for an answer; the usage line, where the words are no question.
pub(crate) fn text_of(q: Question, capture: &[u8], size: usize, out: &mut [u8]) -> usize {
    if !inquiry::is_asked(q) {
        return inquiry::put_usage(out, 0);
    }
    let mut buf = [0u8; 65_536];
    let mut kept = [0u8; 2048];
    let s = searched(q, capture, size, &mut buf, &mut kept);
    inquiry::put_text(out, s, &buf, &kept, inquiry::thing_of(q))
}
