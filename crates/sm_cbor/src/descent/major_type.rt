// The major types of items (RFC 8949, section 3.1).
ghost use Rattle.std.specs.Prelude.{◌≡◌, ◌/◌};
ghost use Rattle.sm_cbor.specs.steps.Descent.{number_of};

/// What the high-order 3 bits of an initial byte say.
#[derive(Clone, Copy, Debug, PartialEq, Eq, Drop)]
pub enum MajorType {
    /// 0: an integer from 0 on.
    Unsigned,
    /// 1: an integer below 0.
    Negative,
    /// 2: a byte string.
    Bytes,
    /// 3: a text.
    Text,
    /// 4: an array.
    Array,
    /// 5: a map.
    Map,
    /// 6: a tag and its content.
    Tag,
    /// 7: a simple value or a float.
    Simple,
}

impl MajorType {
    /// The major type that an initial byte says.
    #[inline(always)]
    pub fn of(byte: u8) -> Self
        ensures { number_of result ≡ byte / 32 }
    {
        match byte / 32 {
            0 => MajorType::Unsigned,
            1 => MajorType::Negative,
            2 => MajorType::Bytes,
            3 => MajorType::Text,
            4 => MajorType::Array,
            5 => MajorType::Map,
            6 => MajorType::Tag,
            _ => MajorType::Simple,
        }
    }
}
