// The kinds of all of Smithy's shapes. The tables of the codec have them; the `ShapeKind` at the crate's top is of the first tables,
// which know a few kinds alone.

/// What kind of values a shape has (Smithy 2.0, "Simple types" and "Aggregate types").
#[derive(Debug, Clone, Copy, PartialEq, Eq, Drop)]
pub enum ShapeKind {
    /// Bytes.
    Blob,
    /// `true` and `false`.
    Boolean,
    /// UTF-8 text.
    Text,
    /// One of some texts.
    Enum,
    /// A whole number of 8 bits with sign.
    Byte,
    /// A whole number of 16 bits with sign.
    Short,
    /// A whole number of 32 bits with sign.
    Integer,
    /// One of some whole numbers of 32 bits with sign.
    IntEnum,
    /// A whole number of 64 bits with sign.
    Long,
    /// A moment in whole milliseconds.
    Timestamp,
    /// Entries in their order.
    List,
    /// Values by text keys.
    Map,
    /// Members by name.
    Structure,
    /// One member of several.
    Union,
    /// A type that has no values here: those of floats, of numbers without bounds, and documents.
    LeftOut,
}
