// The words of the command line: where each stands among the arguments.

// The places of name, label and MEP-IDs among the arguments, and the type of BFD Authentication that
// was named.
#[derive(Clone, Copy)]
pub struct Words {
    pub name: Option<usize>,
    pub label: Option<usize>,
    pub own: Option<usize>,
    pub expected: Option<usize>,
    pub authentication: Option<u16>,
}

impl Words {
    // The type of BFD Authentication; 3 where none was named.
    pub(crate) fn type_in_use(self) -> u16 {
        self.authentication.unwrap_or(3)
    }

    // Whether an argument has a place of its own in the line.
    pub(crate) fn has_place(self, i: usize) -> bool {
        let i = Some(i);
        i == self.name || i == self.label || i == self.own || i == self.expected
    }
}

// A word that can stand in a line of the sessions file: not empty, no blank, no control character, no
// comment.
fn is_plain(w: &[u8]) -> bool {
    match w.first() {
        None | Some(b'#') => false,
        Some(_) => w.iter().all(|o| o.is_ascii_graphic()),
    }
}

// One digit more, within 16 bits.
fn one_more(n: u16, digit: u8) -> Option<u16> {
    if !digit.is_ascii_digit() {
        return None;
    }
    n.checked_mul(10)?.checked_add((digit - b'0') as u16)
}

// A number of 16 bits: digits alone, and at least one.
fn number_in(w: &[u8]) -> Option<u16> {
    if w.is_empty() {
        return None;
    }
    let mut n: u16 = 0;
    for &digit in w {
        n = one_more(n, digit)?;
    }
    Some(n)
}

fn with_authentication(w: Words, digits: &[u8]) -> Option<Words> {
    let n = number_in(digits)?;
    w.authentication.is_none().then_some(Words {
        authentication: Some(n),
        ..w
    })
}

// A word that a record carries itself is none of the command line's.
fn is_carried(word: &[u8]) -> bool {
    word.starts_with(b"my=") || word.starts_with(b"period=")
}

// One word more, at a place among the arguments; each that is taken by itself stands once. None: these
// words are no question.
fn take_word(w: Words, i: usize, word: &[u8]) -> Option<Words> {
    if let Some(digits) = word.strip_prefix(b"authentication=") {
        return with_authentication(w, digits);
    }
    if !is_plain(word) || is_carried(word) {
        return None;
    }
    let i = Some(i);
    // Without a sign of equality it is a name.
    if !word.contains(&b'=') {
        return w.name.is_none().then_some(Words { name: i, ..w });
    }
    if word.starts_with(b"label=") {
        return w.label.is_none().then_some(Words { label: i, ..w });
    }
    if word.starts_with(b"own=") {
        return w.own.is_none().then_some(Words { own: i, ..w });
    }
    if word.starts_with(b"expected=") {
        return w.expected.is_none().then_some(Words { expected: i, ..w });
    }
    Some(w)
}

// All arguments behind the program's name, no more than 16. One that does not fit its buffer is no word.
pub(crate) fn all_words(rt: HostRuntime) -> Option<Words> {
    if 17 < arguments::count(rt) {
        return None;
    }
    let mut words = Words {
        name: None,
        label: None,
        own: None,
        expected: None,
        authentication: None,
    };
    let mut buf = [0u8; 128];
    for i in 1..arguments::count(rt) {
        words = take_word(words, i, arguments::word(rt, i, &mut buf))?;
    }
    Some(words)
}
