// The line before a chunk's data: how many bytes the chunk has.
ghost use Rattle.std.specs.Prelude.{◌≡◌, ◌≤◌, length};
ghost use Rattle.std.specs.Char.{is_ascii_hexdigit};
ghost use Rattle.std.specs.Str.Parse.{digits_value};
ghost use Rattle.httparse.specs.Grammar.{AllPass};
ghost use Rattle.sm_http.specs.Limits.{most_size_digits};
ghost use Rattle.sm_http.specs.steps.SizeLines.{is_tail, SaysSize, SeesSize};

use crate::limits::{MOST_SIZE_DIGITS, SIZE_LINE_LIMIT};
use crate::line::{SeenLine, see_line};
use httparse::parse_hex_digit;
use sm_bytes::{ByteClass, run_len};

// The hexadecimal digits, in either case.
struct HexDigits;

impl ByteClass for HexDigits {
    ghost use Rattle.std.specs.Char.{is_ascii_hexdigit};

    ghost holds = { is_ascii_hexdigit };

    fn has(byte: u8) -> bool {
        byte.is_ascii_hexdigit()
    }
}

// Spaces and tabs.
struct Blanks;

impl ByteClass for Blanks {
    ghost use Rattle.httparse.specs.Grammar.{is_ows};

    ghost holds = { is_ows };

    fn has(byte: u8) -> bool {
        byte == b' ' || byte == b'\t'
    }
}

/// What the bytes so far show of a size line.
pub enum SeenSize {
    /// A whole line: its number, and how many bytes it has.
    Whole(u64, usize),
    /// A part of one, or nothing.
    Part,
    /// No bytes can follow that make a size line.
    Never,
}

// Whether spaces and tabs stand there, and then nothing or an extension.
fn is_tail(bytes: &[u8]) -> bool
    ensures { result ≡ is_tail bytes.now }
{
    let blanks = run_len::<Blanks>(bytes);
    blanks == bytes.len() || bytes[blanks] == b';'
}

// The number that at most eight digits write.
fn size_value(digits: &[u8]) -> u64
    requires few { length digits.now ≤ most_size_digits }
    requires digits { AllPass is_ascii_hexdigit digits.now }
    ensures { result ≡ digits_value 16 digits.now }
{
    let mut size: u64 = 0;
    for byte in digits {
        let Some(digit) = parse_hex_digit(*byte) else {
            unreachable!()
        };
        size = size * 16 + digit;
    }
    size
}

// The number that the text of a size line writes. None where it is no such text.
fn text_size(text: &[u8]) -> Option<u64>
    ensures { SaysSize text.now result }
{
    let digits = run_len::<HexDigits>(text);
    if digits == 0 || digits > MOST_SIZE_DIGITS {
        return None;
    }
    if !is_tail(&text[digits..]) {
        return None;
    }
    Some(size_value(&text[..digits]))
}

/// The size line at the start of the bytes.
pub fn see_size(bytes: &[u8]) -> SeenSize
    ensures { SeesSize bytes.now result }
{
    match see_line(bytes) {
        SeenLine::Whole(len) => {
            if len > SIZE_LINE_LIMIT {
                return SeenSize::Never;
            }
            match text_size(&bytes[..len]) {
                Some(size) => SeenSize::Whole(size, len + 2),
                None => SeenSize::Never,
            }
        }
        SeenLine::Part(len) => {
            if bytes.len() == 0 {
                return SeenSize::Part;
            }
            if len > SIZE_LINE_LIMIT {
                return SeenSize::Never;
            }
            match text_size(&bytes[..len]) {
                Some(_) => SeenSize::Part,
                None => SeenSize::Never,
            }
        }
        SeenLine::Never => SeenSize::Never,
    }
}
