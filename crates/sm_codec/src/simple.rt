// Simple types: what a convention of leaves is asked about.
use sm_time::Format;

/// A simple type of values (Smithy 2.0, "Simple types").
#[derive(Debug, Clone, Copy, PartialEq, Eq, Drop)]
pub enum Simple {
    /// Bytes.
    Blob,
    /// `true` and `false`.
    Boolean,
    /// UTF-8 text.
    Text,
    /// A whole number of so many bits, with its sign.
    Number(u8),
    /// A moment in whole milliseconds, as a text of this format where the convention looks at one.
    Time(Format),
}
