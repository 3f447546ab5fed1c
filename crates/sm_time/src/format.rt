// The formats of a stamp's text, and why a text is refused. Both ends of the crate name them.

/// A format of Smithy's `timestampFormat` trait.
#[derive(Clone, Copy, PartialEq, Eq, Debug)]
pub enum Format {
    /// `2000-02-29T12:00:00.5+01:30` (RFC 3339, section 5.6).
    DateTime,
    /// `Sun, 06 Nov 1994 08:49:37 GMT` (IMF-fixdate of RFC 9110, section 5.6.7).
    HttpDate,
    /// `784111777.5`: a JSON number without an exponent (RFC 8259, section 6), of seconds from 1970.
    EpochSeconds,
}

/// Why a text isn't read, or a stamp isn't written.
#[derive(Clone, Copy, PartialEq, Eq, Debug)]
pub enum TimeRefusal {
    /// The text is none of the format's texts.
    BadText,
    /// A digit of the fraction after the third isn't 0.
    TooFine,
    /// The moment isn't in the years 0000 to 9999 of UTC.
    OutOfRange,
    /// The format has no text of the stamp.
    OutOfFormat,
}
