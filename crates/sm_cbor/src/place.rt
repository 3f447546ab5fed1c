// Where the machine that reads items stands (RFC 8949, section 3).
use sm_bytes::Utf8;

/// What a string stands for.
#[derive(Clone, Copy, PartialEq, Eq, Debug, Drop)]
pub enum StringKind {
    /// A byte string.
    Bytes,
    /// A text that is a value.
    Text,
    /// A text that is a map's key.
    Key,
}

/// How much of a string a head begins.
#[derive(Clone, Copy, PartialEq, Eq, Debug, Drop)]
pub enum Span {
    /// The whole string.
    Whole,
    /// A chunk of a string of indefinite length.
    Chunk,
}

/// What an argument is the argument of.
#[derive(Clone, Copy, PartialEq, Eq, Debug, Drop)]
pub enum Subject {
    /// The integer itself.
    Unsigned,
    /// The integer is -1 less the argument.
    Negative,
    /// A string's or a chunk's length in bytes.
    String(StringKind, Span),
    /// The number of an array's entries.
    List,
    /// The number of a map's pairs.
    Map,
    /// A tag's number.
    Tag,
    /// The bits of a float or a simple value with this initial byte.
    Opaque(u8),
}

/// Where a reader stands between two bytes.
#[derive(Clone, Copy, PartialEq, Eq, Debug, Drop)]
pub enum CborPlace {
    /// Before an item.
    Item,
    /// Before a map's key.
    Key,
    /// Behind an item: nothing more may come, or a break or another entry, or a break or another key.
    After,
    /// In an argument of which so many bytes, at least one, are to come; its value so far.
    Argument(Subject, u8, u64),
    /// In a string or a chunk of which so many bytes, at least one, are to come, and what may come of UTF-8.
    String(StringKind, Span, u64, Utf8),
    /// Before a chunk of a string of indefinite length, or the break behind them.
    Chunks(StringKind),
}

/// What is open round a place.
#[derive(Clone, Copy, PartialEq, Eq, Debug, Drop)]
pub enum Level {
    /// A tag, which ends with its content.
    Tag,
    /// An array, of which so many entries are to come.
    List(u64),
    /// An array that ends with a break.
    ListToBreak,
    /// A map, of which so many pairs are to come, without one whose key has come.
    Map(u64),
    /// A map that ends with a break.
    MapToBreak,
}
