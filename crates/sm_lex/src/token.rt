// Tokens as data, and why a text has none.
ghost use Rattle.std.specs.Prelude.{◌≡◌, ◌+◌, length};
ghost use Rattle.sm_tree.specs.Numbers.{IsNumber};
ghost use Rattle.sm_lex.specs.declared.token.TokenKind.TheVariants.{Number as a_number, Text as a_string, Block as a_block};
ghost use Rattle.sm_lex.specs.Shapes.{IsStringText, IsBlockText};

use std::alloc::{AllocError, AllocFailed};

/// What a token is (Smithy 2.0, "Smithy IDL", "Grammar").
#[derive(Debug, Clone, Copy, PartialEq, Eq, Drop)]
pub enum TokenKind {
    /// The longest run of letters, digits, `_`, `.`, `#` and `$` that begins with a letter or `_`.
    Word,
    /// A number of JSON (RFC 8259, section 6), the longest run that begins one.
    Number,
    /// A string between quotation marks.
    Text,
    /// A text block: three quotation marks, a line end, and all up to the next three.
    Block,
    /// One of `{ } [ ] ( ) : = := @ $`.
    Mark,
}

/// A token, and where it stands. A string and a text block have no bad escape.
#[derive(Debug, Clone, Copy, PartialEq, Eq, Drop)]
pub struct Token<'a> {
    /// What it is.
    pub kind: TokenKind,
    /// Its bytes in the text, quotation marks included.
    pub text: &'a str,
    /// The place of its first byte, counted in bytes from 0.
    pub start: u64,
    /// The place behind its last byte.
    pub end: u64,
    pub ghost span: { end ≡ start + length text.now },
    pub ghost number: { kind ≡ a_number → ∥ IsNumber text.now ∥₁ },
    pub ghost string: { kind ≡ a_string → IsStringText start text.now },
    pub ghost block: { kind ≡ a_block → IsBlockText start text.now },
}

/// Why a text has no tokens: the first reason in the text. Places count bytes from 0.
#[derive(Debug, Clone, Copy, PartialEq, Eq, Drop)]
pub enum LexRefusal {
    /// The byte at this place goes on with no token and begins none. Where a number or the opening of a text
    /// block breaks off, the place may be the length of the text.
    Bad(u64),
    /// The string whose first quotation mark stands at this place has no end.
    UnclosedString(u64),
    /// The text block whose first quotation mark stands at this place has no end.
    UnclosedBlock(u64),
    /// The backslash at this place begins no escape.
    BadEscape(u64),
    /// The allocator refused the memory that the list of tokens needs.
    NoMemory,
}

impl From<AllocError> for LexRefusal {
    ghost use Rattle.std.specs.Prelude.{◌≡◌};
    ghost use Rattle.sm_lex.specs.declared.token.LexRefusal.TheVariants.{NoMemory as no_memory};

    ghost from_gives = { λ _ refusal. refusal ≡ no_memory };

    fn from(_error: AllocError) -> Self {
        LexRefusal::NoMemory
    }
}

impl<T: Drop> From<AllocFailed<T>> for LexRefusal {
    ghost use Rattle.std.specs.Prelude.{◌≡◌};
    ghost use Rattle.sm_lex.specs.declared.token.LexRefusal.TheVariants.{NoMemory as no_memory};

    ghost from_gives = { λ _ refusal. refusal ≡ no_memory };

    fn from(_refused: AllocFailed<T>) -> Self {
        LexRefusal::NoMemory
    }
}
