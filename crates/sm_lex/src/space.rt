// Whitespace and comments (Smithy 2.0, "Smithy IDL", "Whitespace" and "Comments").
ghost use Rattle.std.specs.Prelude.{◌≡◌, ◌≤◌, length, drop, ◌<◌, IfSome};
ghost use Rattle.sm_lex.specs.Space.{SkipsSpace, EndsSpace};
ghost use Rattle.sm_lex.specs.steps.LexSteps.{PartOfSpace, part_len};

use crate::byte::{CommentBytes, is_idl_white};
use sm_bytes::run_len;

/// A piece of what stands between tokens.
#[derive(Debug, Clone, Copy, PartialEq, Eq, Drop)]
pub enum SpacePart {
    /// One byte of whitespace.
    White,
    /// A comment, with the number of its bytes.
    Comment(usize),
}

impl SpacePart {
    /// How many bytes it has.
    pub fn len(self) -> usize
        ensures { result ≡ part_len self }
    {
        match self {
            SpacePart::White => 1,
            SpacePart::Comment(len) => len,
        }
    }
}

/// The piece of whitespace or comment that stands first.
pub fn space_part(bytes: &[u8]) -> Option<SpacePart>
    ensures part { PartOfSpace bytes.now result }
    ensures within { IfSome result (λ part. part_len part ≤ length bytes.now) }
    ensures some { IfSome result (λ part. 0 < part_len part) }
{
    match bytes {
        [b'/', b'/', text @ ..] => Some(SpacePart::Comment(2 + run_len::<CommentBytes>(text))),
        [byte, ..] if is_idl_white(*byte) => Some(SpacePart::White),
        _ => None,
    }
}

/// How many bytes of whitespace and comments stand first.
pub fn space_len(bytes: &[u8]) -> usize
    ensures within { result ≤ length bytes.now }
    ensures skips { SkipsSpace bytes.now (drop result bytes.now) }
    ensures ends { EndsSpace (drop result bytes.now) }
{
    let mut at = 0;
    while let Some(part) = space_part(&bytes[at..]) {
        at += part.len();
    }
    at
}
