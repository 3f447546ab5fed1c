// What values are by their types alone, for proofs that need it.
ghost use Rattle.std.specs.Prelude.{◌<◌, ◌^◌, IsUtf8, FitsSigned};
ghost use Rattle.std.specs.Int.{w64};
ghost use Rattle.sm_tree.specs.Json.{AreBytes};

use sm_tree::Text;

/// A text is UTF-8 by its type.
pub fn see_text(text: &Text)
    ensures { IsUtf8 text.now }
{
    let _text = text.as_str();
}

/// An integer has 64 bits by its type.
pub fn see_int(value: i64)
    ensures { FitsSigned w64 value }
{
    let _value = value;
}

/// A tag's number has 64 bits by its type.
pub fn see_number(number: u64)
    ensures { number < 2 ^ 64 }
{
    let _number = number;
}

/// Bytes are bytes by their type.
pub fn see_bytes(bytes: &[u8])
    ensures { AreBytes bytes.now }
{
    let _bytes = bytes;
}
