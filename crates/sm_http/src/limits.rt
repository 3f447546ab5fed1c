// The limits of the profile. Definitions have them in specs/Limits.antt.

/// The most bytes of a head.
pub const HEAD_LIMIT: usize = 16_384;

/// The most fields of a head.
pub const MOST_FIELDS: usize = 64;

/// The most bytes of a body's data.
pub const BODY_LIMIT: u64 = 8_388_608;

/// The most bytes that one call gives or takes.
pub const PIECE_LIMIT: usize = 4096;

/// More fields than the bytes of a head can hold, each of at least three bytes.
pub const FIELD_ROOM: usize = 5500;

/// The most hexadecimal digits of a chunk's size.
pub const MOST_SIZE_DIGITS: usize = 8;

/// The most bytes of a size line, without its line end.
pub const SIZE_LINE_LIMIT: usize = 256;

/// The most bytes of all trailer lines, with their line ends.
pub const TRAILER_LIMIT: usize = 4096;
