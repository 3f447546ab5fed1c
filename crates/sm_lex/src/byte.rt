// Classes of bytes (Smithy 2.0, "Smithy IDL", "Grammar"), and those whose runs are measured.
ghost use Rattle.std.specs.Prelude.{◌≡◌};
ghost use Rattle.sm_lex.specs.Bytes.{first_of, is_idl_white};

use sm_bytes::ByteClass;

/// What a byte begins where a token may stand.
#[derive(Debug, Clone, Copy, PartialEq, Eq, Drop)]
pub enum First {
    /// Whitespace: a space, a tab, CR, LF or a comma.
    White,
    /// `/`, which begins a comment where another one follows.
    Slash,
    /// A letter or `_`.
    Word,
    /// A digit or `-`.
    Number,
    /// A quotation mark.
    Quote,
    /// One of `{ } [ ] ( ) : = @ $`.
    Mark,
    /// Any other byte.
    Stray,
}

/// What this byte begins.
pub fn first_of(byte: u8) -> First
    ensures { result ≡ first_of byte }
{
    match byte {
        b' ' | b'\t' | b'\r' | b'\n' | b',' => First::White,
        b'/' => First::Slash,
        b'a'..=b'z' | b'A'..=b'Z' | b'_' => First::Word,
        b'0'..=b'9' | b'-' => First::Number,
        b'"' => First::Quote,
        b'{' | b'}' | b'[' | b']' | b'(' | b')' | b':' | b'=' | b'@' | b'$' => First::Mark,
        _ => First::Stray,
    }
}

/// Whether the byte is whitespace.
pub fn is_idl_white(byte: u8) -> bool
    ensures { result ≡ is_idl_white byte }
{
    matches!(byte, b' ' | b'\t' | b'\r' | b'\n' | b',')
}

/// The bytes with which a word goes on.
pub struct WordBytes;

impl ByteClass for WordBytes {
    ghost use Rattle.sm_lex.specs.Bytes.{is_word_byte};

    ghost holds = { is_word_byte };

    #[inline(always)]
    fn has(byte: u8) -> bool {
        matches!(byte, b'a'..=b'z' | b'A'..=b'Z' | b'_' | b'0'..=b'9' | b'.' | b'#' | b'$')
    }
}

/// The bytes with which a comment goes on: all but LF.
pub struct CommentBytes;

impl ByteClass for CommentBytes {
    ghost use Rattle.std.specs.Prelude.{not};
    ghost use Rattle.sm_lex.specs.Space.{is_line_feed};

    ghost holds = { λ c. not (is_line_feed c) };

    #[inline(always)]
    fn has(byte: u8) -> bool {
        byte != b'\n'
    }
}

/// The bytes with which a line goes on: all but LF and CR.
pub struct LineBytes;

impl ByteClass for LineBytes {
    ghost use Rattle.std.specs.Prelude.{not};
    ghost use Rattle.sm_lex.specs.Lines.{is_line_end};

    ghost holds = { λ c. not (is_line_end c) };

    #[inline(always)]
    fn has(byte: u8) -> bool {
        byte != b'\n' && byte != b'\r'
    }
}

/// The bytes of a line that stand for themselves: all but a backslash.
pub struct PlainBytes;

impl ByteClass for PlainBytes {
    ghost use Rattle.std.specs.Prelude.{not};
    ghost use Rattle.sm_lex.specs.Lines.{is_backslash};

    ghost holds = { λ c. not (is_backslash c) };

    #[inline(always)]
    fn has(byte: u8) -> bool {
        byte != b'\\'
    }
}

/// The space alone.
pub struct Spaces;

impl ByteClass for Spaces {
    ghost use Rattle.sm_lex.specs.Lines.{is_space};

    ghost holds = { is_space };

    #[inline(always)]
    fn has(byte: u8) -> bool {
        byte == b' '
    }
}
