// The initial byte of an item (RFC 8949, section 3): what it says of the item, and what follows it.
ghost use Rattle.std.specs.Prelude.{◌≡◌, ◌<◌, ◌≤◌, ◌%◌, ◌↔◌, length, ℕ, IfSome, IfNone, IsTrue, []};
ghost use Rattle.sm_cbor.specs.Heads.{Number};
ghost use Rattle.sm_cbor.specs.steps.Reading.{HeadIs, StartsNumber, WidthIs, ChunkIs, HasHead, IsBits, IsText, bound, major_of};

use crate::place::{Span, StringKind, Subject};

/// What an initial byte says.
#[derive(Clone, Copy, PartialEq, Eq, Debug, Drop)]
pub enum Head {
    /// What this is comes with an argument, of which so many bytes follow; its value so far.
    Argument(Subject, u8, u64),
    /// The chunks of a string of indefinite length.
    Chunks(StringKind),
    /// An array of indefinite length.
    List,
    /// A map of indefinite length.
    Map,
    /// `null` or `undefined`.
    Null,
    /// `false` or `true`.
    Bool(bool),
    /// Reserved, or a "break".
    NoItem,
}

/// A head whose bytes are all at hand.
#[derive(Clone, Copy, PartialEq, Eq, Debug, Drop)]
pub struct WholeHead {
    /// What the argument is of.
    pub subject: Subject,
    /// The argument.
    pub value: u64,
    /// How many bytes the head has.
    pub len: usize,
}

/// The initial byte of a byte string of indefinite length.
pub const INDEFINITE_BYTES: u8 = 0x5F;

/// The initial byte of a text of indefinite length.
pub const INDEFINITE_TEXT: u8 = 0x7F;

/// The initial byte of an array of indefinite length.
pub const INDEFINITE_ARRAY: u8 = 0x9F;

/// The initial byte of a map of indefinite length.
pub const INDEFINITE_MAP: u8 = 0xBF;

/// The initial byte of a "break".
pub const BREAK: u8 = 0xFF;

/// The major type of texts.
pub const TEXT: u8 = 3;

/// How many bytes of the argument follow, and its value so far. None where there is no argument.
pub fn width(info: u8) -> Option<(u8, u64)>
    requires { info < 32 }
    ensures { WidthIs info result }
{
    match info {
        24 => Some((1, 0)),
        25 => Some((2, 0)),
        26 => Some((4, 0)),
        27 => Some((8, 0)),
        28..=31 => None,
        _ => Some((0, u64::from(info))),
    }
}

// An initial byte whose length is indefinite, or that is reserved.
fn without_argument(byte: u8) -> Head
    requires { 28 ≤ byte % 32 }
    ensures { HeadIs byte result }
{
    match byte {
        0x5F => Head::Chunks(StringKind::Bytes),
        0x7F => Head::Chunks(StringKind::Text),
        0x9F => Head::List,
        0xBF => Head::Map,
        _ => Head::NoItem,
    }
}

// An initial byte with an argument.
fn with_argument(byte: u8, left: u8, value: u64) -> Head
    requires { StartsNumber (byte % 32) left value }
    ensures { HeadIs byte result }
{
    match byte {
        0..=0x1F => Head::Argument(Subject::Unsigned, left, value),
        0x20..=0x3F => Head::Argument(Subject::Negative, left, value),
        0x40..=0x5F => Head::Argument(Subject::String(StringKind::Bytes, Span::Whole), left, value),
        0x60..=0x7F => Head::Argument(Subject::String(StringKind::Text, Span::Whole), left, value),
        0x80..=0x9F => Head::Argument(Subject::List, left, value),
        0xA0..=0xBF => Head::Argument(Subject::Map, left, value),
        0xC0..=0xDF => Head::Argument(Subject::Tag, left, value),
        0xF4 => Head::Bool(false),
        0xF5 => Head::Bool(true),
        0xF6 | 0xF7 => Head::Null,
        _ => Head::Argument(Subject::Opaque(byte), left, value),
    }
}

/// What an initial byte says of the item that it begins.
pub fn head_of(byte: u8) -> Head
    ensures { HeadIs byte result }
{
    match width(byte % 32) {
        Some((left, value)) => with_argument(byte, left, value),
        None => without_argument(byte),
    }
}

impl Subject {
    // Whether the argument is the bits of a value, of which not all are any value's.
    fn is_bits(self) -> bool
        ensures { IsTrue result ↔ IsBits self }
    {
        matches!(self, Subject::Opaque(_))
    }

    /// Whether the argument is a text's length in bytes.
    pub fn is_text(self) -> bool
        ensures { IsTrue result ↔ IsText self }
    {
        matches!(self, Subject::String(StringKind::Text, _))
    }
}

/// The number that begins with this value and goes on with these bytes, the most significant first.
pub fn number(value: u64, bytes: &[u8]) -> u64
    requires { value < bound (length bytes.now) }
    ensures { Number (length bytes.now) value result bytes.now [] }
{
    let mut number = value;
    for byte in bytes {
        number = number * 256 + u64::from(*byte);
    }
    number
}

/// The head that the bytes begin with. None where not all its bytes are at hand, or where it has no argument or one that is bits. No
/// memory.
pub fn whole_head(bytes: &[u8]) -> Option<WholeHead>
    requires { 0 < length bytes.now }
    ensures some { IfSome result (λ head. HasHead bytes.now head.subject head.value head.len) }
    ensures none { IfNone result ((subject : Subject) (value len : ℕ) → HasHead bytes.now subject value len → ⊥) }
{
    let Head::Argument(subject, left, value) = head_of(bytes[0]) else {
        return None;
    };
    let len = 1 + left as usize;
    if subject.is_bits() || bytes.len() < len {
        return None;
    }
    Some(WholeHead {
        subject,
        value: number(value, &bytes[1..len]),
        len,
    })
}

impl StringKind {
    // The major type.
    fn major(self) -> u8
        ensures { result ≡ major_of self }
    {
        match self {
            StringKind::Bytes => 2,
            StringKind::Text | StringKind::Key => TEXT,
        }
    }
}

/// What follows the initial byte of a chunk of such a string. None where it begins no chunk.
pub fn chunk_head(kind: StringKind, byte: u8) -> Option<(u8, u64)>
    ensures { ChunkIs kind byte result }
{
    if byte / 32 == kind.major() {
        width(byte % 32)
    } else {
        None
    }
}
