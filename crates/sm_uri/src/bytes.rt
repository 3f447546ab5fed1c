// Runs of bytes at the start of a text, and what is behind a mark.
ghost use Rattle.std.specs.Prelude.{◌≡◌, ◌∷◌, ◌<◌, ℕ, List, MatchOption};
ghost use Rattle.sm_ids.specs.Identifier.{is_identifier_byte};
ghost use Rattle.sm_ids.specs.steps.Ahead.{is_underscore};
ghost use Rattle.sm_uri.specs.UriPattern.{is_key_byte, is_literal_byte, is_value_byte};
ghost use Rattle.sm_uri.specs.steps.UriReading.{CutsText, IsRunCut, ends_path, ends_segment};

use sm_bytes::{ByteClass, run_len};

/// What stands first in a text, and what is behind it.
#[derive(Debug, Clone, Copy)]
pub(crate) struct Cut<'a> {
    /// What stands first.
    pub taken: &'a str,
    /// What is behind it.
    pub behind: &'a str,
}

/// Literal text of a path.
pub(crate) struct LiteralBytes;

impl ByteClass for LiteralBytes {
    ghost holds = { is_literal_byte };

    fn has(byte: u8) -> bool {
        !matches!(byte, b'{' | b'}' | b'?' | b'#' | b'/')
    }
}

/// The key of a query literal.
pub(crate) struct KeyBytes;

impl ByteClass for KeyBytes {
    ghost holds = { is_key_byte };

    fn has(byte: u8) -> bool {
        !matches!(byte, b'{' | b'}' | b'&' | b'#' | b'=')
    }
}

/// Its value.
pub(crate) struct ValueBytes;

impl ByteClass for ValueBytes {
    ghost holds = { is_value_byte };

    fn has(byte: u8) -> bool {
        !matches!(byte, b'{' | b'}' | b'&' | b'#')
    }
}

/// Letters, digits and underscores.
pub(crate) struct NameBytes;

impl ByteClass for NameBytes {
    ghost holds = { is_identifier_byte };

    fn has(byte: u8) -> bool {
        byte.is_ascii_alphanumeric() || byte == b'_'
    }
}

/// What an identifier may begin with.
pub(crate) struct LowLines;

impl ByteClass for LowLines {
    ghost holds = { is_underscore };

    fn has(byte: u8) -> bool {
        byte == b'_'
    }
}

/// The bytes of a class that stand first, up to the first other one.
pub(crate) fn cut_run<C: ByteClass>(text: &str) -> Cut<'_>
    requires { CutsText C.holds }
    ensures { IsRunCut C.holds text.now result }
{
    let (taken, behind) = text.split_at(run_len::<C>(text.as_bytes()));
    Cut { taken, behind }
}

/// What is behind a mark that stands first.
pub(crate) fn strip(text: &str, mark: char) -> Option<&str>
    requires { mark < 128 }
    ensures { MatchOption result
        ((rest : List ℕ) → text.now ≡ mark ∷ rest → ⊥)
        (λ rest. text.now ≡ mark ∷ rest.now) }
{
    text.strip_prefix(mark)
}

/// Whether a segment may end before this: a `/`, a `?` or nothing.
pub(crate) fn may_end(text: &str) -> bool
    ensures { result ≡ ends_segment text.now }
{
    match text.as_bytes().first() {
        Some(byte) => *byte == b'/' || *byte == b'?',
        None => true,
    }
}

/// Whether the path may be `/` alone behind which this stands: a `?` or nothing.
pub(crate) fn may_be_root(text: &str) -> bool
    ensures { result ≡ ends_path text.now }
{
    match text.as_bytes().first() {
        Some(byte) => *byte == b'?',
        None => true,
    }
}
