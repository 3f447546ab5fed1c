// Places of texts as a person counts them.
/// A place of a text: line and column, counted from 1, a column a character.
#[derive(Debug, Clone, Copy)]
pub struct LineColumn {
    /// The line.
    pub line: u64,
    /// The column.
    pub column: u64,
}

impl LineColumn {
    /// The place of the byte of this number, counted from 0. Behind the last byte it is the text's end.
    pub fn of(text: &[u8], at: usize) -> Self {
        let mut place = LineColumn { line: 1, column: 1 };
        for byte in text.iter().take(at) {
            place.pass(*byte);
        }
        place
    }

    // Passes a byte. Those of a character behind its first have no column.
    fn pass(&mut self, byte: u8) {
        if byte == b'\n' {
            self.line = self.line.saturating_add(1);
            self.column = 1;
        } else if byte & 0xC0 != 0x80 {
            self.column = self.column.saturating_add(1);
        }
    }
}

/// The greatest length of what is named at a place, in bytes.
const NAMED: usize = 60;

/// What stands at a place: a run of letters, digits, `_`, `.`, `#` and `$`, or one character; `None` at the end, and where it is no text.
pub fn token_at(text: &[u8], at: usize) -> Option<&str> {
    let rest = text.get(at..)?;
    let token = rest.get(..token_len(rest))?;
    if token.is_empty() {
        return None;
    }
    std::str::from_utf8(token).ok()
}

// How long what stands first is.
fn token_len(rest: &[u8]) -> usize {
    let Some(first) = rest.first() else {
        return 0;
    };
    let in_word = is_word(*first);
    let mut length: usize = 0;
    for byte in rest {
        if length >= NAMED || (length > 0 && !goes_on(in_word, *byte)) {
            return length;
        }
        length = length.saturating_add(1);
    }
    length
}

// Whether a byte belongs to the word, or to the character, that stands before it.
fn goes_on(in_word: bool, byte: u8) -> bool {
    if in_word {
        is_word(byte)
    } else {
        byte & 0xC0 == 0x80
    }
}

fn is_word(byte: u8) -> bool {
    byte.is_ascii_alphanumeric() || matches!(byte, b'_' | b'.' | b'#' | b'$')
}
