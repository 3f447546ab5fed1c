// Why bytes are refused that are no JSON text or no CBOR item: the refusals of both formats' readers.
ghost use Rattle.std.specs.Prelude.{◌≡◌, ◌-◌, ◌^◌};
ghost use Rattle.sm_tree.specs.Refusal.{moved_by as refusal_moved_by, IsWithin};

use crate::NoMemory;

/// The greatest number of levels that is read: as many arrays, objects, maps and tags may be open at one place.
pub const MOST_LEVELS: usize = 100;

/// Why bytes were not read. A text here is a JSON text (RFC 8259) or an encoded CBOR item (RFC 8949), of at most
/// `MOST_LEVELS` levels where nothing else is said: arrays and objects of JSON, and arrays, maps and tags of CBOR, are
/// levels. Places count bytes from 0. The least place decides; at one place `KeyKind` goes before `TooDeep`, and
/// `TooDeep` before `Bad`.
#[derive(Debug, Clone, Copy, PartialEq, Eq, Drop)]
pub enum SyntaxRefusal {
    /// The bytes before this place begin a text, and with the byte at it none goes on, however deep.
    Bad(u64),
    /// No place is refused: all the bytes begin a text, and are none.
    Ended,
    /// The bytes before this place begin a text, and the byte at it opens level 101: with it only deeper texts go on.
    TooDeep(u64),
    /// In CBOR alone: the bytes before this place begin a text, and the byte at it begins an item that isn't text
    /// where a map's key stands.
    KeyKind(u64),
    /// The allocator refused the memory that reading needs.
    NoMemory,
}

impl SyntaxRefusal {
    /// The refusal of bytes that are part of others: its place counts from so many bytes further on. The caller must see
    /// that the place then fits 64 bits.
    pub fn moved_by(self, by: usize) -> SyntaxRefusal
        requires room { IsWithin (2 ^ 64 - by) self }
        ensures { result ≡ refusal_moved_by by self }
    {
        match self {
            SyntaxRefusal::Bad(at) => SyntaxRefusal::Bad(by as u64 + at),
            SyntaxRefusal::Ended => SyntaxRefusal::Ended,
            SyntaxRefusal::TooDeep(at) => SyntaxRefusal::TooDeep(by as u64 + at),
            SyntaxRefusal::KeyKind(at) => SyntaxRefusal::KeyKind(by as u64 + at),
            SyntaxRefusal::NoMemory => SyntaxRefusal::NoMemory,
        }
    }
}

impl From<NoMemory> for SyntaxRefusal {
    ghost use Rattle.std.specs.Prelude.{◌≡◌};
    ghost use Rattle.sm_tree.specs.declared.refusal.SyntaxRefusal.TheVariants.{NoMemory as no_memory};

    ghost from_gives = { λ _ refusal. refusal ≡ no_memory };

    fn from(_refusal: NoMemory) -> Self {
        Self::NoMemory
    }
}
