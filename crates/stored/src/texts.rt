// Text in buffers: put at a place, taken a step further, and its lines counted and taken.
ghost use Rattle.std.specs.Prelude.{◌≡◌};
ghost use Rattle.std.specs.Counts.{IsPrefixLen};
ghost use Rattle.stored.specs.Lines.{line_count, whole_lines};

// Puts text at a place, as far as there is room, and answers the place behind it.
pub fn put_text(out: &mut [u8], at: usize, text: &[u8]) -> usize
    ensures { IsPrefixLen result out.new }
{
    if out.len() <= at {
        return out.len();
    }
    let n = text.len().min(out.len() - at);
    out[at..at + n].copy_from_slice(&text[..n]);
    at + n
}

// A step further, at most to the end.
pub fn further(have: usize, step: usize, all: &[u8]) -> usize
    ensures { IsPrefixLen result all.now }
{
    have.saturating_add(step).min(all.len())
}

pub fn line_count(text: &[u8]) -> u64
    ensures { result ≡ line_count text.now }
{
    text.iter().filter(|&&b| b == b'\n').count() as u64
}

// The lines of a text. What has no end is no line.
pub fn whole_lines(text: &[u8]) -> &[u8]
    ensures { result.now ≡ whole_lines text.now }
{
    match text.iter().rposition(|&b| b == b'\n') {
        Some(last) => &text[..=last],
        None => &text[..0],
    }
}
