// Where a reader stands within a string (RFC 8259, section 7), and what one byte makes of that place.

/// How far the four hexadecimal digits of a code unit have come, with the number that those so far make.
#[derive(Clone, Copy)]
pub enum UnitDigits {
    First,
    Second(u16),
    Third(u16),
    Fourth(u16),
}

/// Where a reader stands within a character of which some bytes have come.
#[derive(Clone, Copy)]
pub enum CharacterPart {
    /// Behind a backslash.
    Escape,
    /// Behind `\u`, in the digits of a code unit.
    Unit(UnitDigits),
    /// Behind the escape of this high surrogate: a backslash has to come.
    LowBackslash(u16),
    /// Behind the escape of this high surrogate and a backslash: `u` has to come.
    LowLetter(u16),
    /// In the digits of the low surrogate that follows this high one.
    LowUnit(u16, UnitDigits),
    /// Behind the first byte of a character in UTF-8 of more than one.
    One(u8),
    /// Behind the first two bytes of a character in UTF-8 of more than two.
    Two(u8, u8),
    /// Behind the first three bytes of a character in UTF-8 of four.
    Three(u8, u8, u8),
}

/// Where a reader stands within a string.
#[derive(Clone, Copy)]
pub enum Spot {
    /// Between two characters, or at an end of the string.
    Plain,
    Inside(CharacterPart),
}

/// What a byte makes of a place within a string.
#[derive(Clone, Copy)]
pub enum SpotStep {
    /// A character goes on.
    Within(CharacterPart),
    /// A character is whole.
    Whole(char),
    /// The string has ended.
    Closed,
    /// No string goes on with this byte.
    Refused,
}
