// Escapes in strings and text blocks (Smithy 2.0, "Smithy IDL", "String values"; RFC 8259, section 7): the
// character that stands behind a backslash.
ghost use Rattle.std.specs.Prelude.{◌≡◌, ◌<◌, ◌≤◌, ◌+◌, ◌-◌, IfSome, IsSome, drop, length, slice_index};
ghost use Rattle.sm_bytes.specs.Escapes.{IsHigh};
ghost use Rattle.sm_lex.specs.Escapes.{code_unit, pair, unit, escape};

use sm_bytes::{hex_value, short_escape};

/// A character, and how many bytes spell it behind the backslash.
#[derive(Debug, Clone, Copy, PartialEq, Eq, Drop)]
pub struct Escape {
    /// The character.
    pub character: char,
    /// From 1 to 11.
    pub count: usize,
}

/// The code unit that `u` and four hexadecimal digits first spell.
fn code_unit(bytes: &[u8]) -> Option<u16>
    ensures value { result ≡ code_unit bytes.now }
    ensures within { IsSome result → 5 ≤ length bytes.now }
    ensures ascii { IsSome result → slice_index bytes.now 4 < 128 }
{
    let [b'u', a, b, c, d, ..] = bytes else {
        return None;
    };
    let (a, b) = (hex_value(*a)?, hex_value(*b)?);
    let (c, d) = (hex_value(*c)?, hex_value(*d)?);
    Some(((a * 16 + b) * 16 + c) * 16 + d)
}

/// The character of a pair of surrogates, from the high one and the bytes behind its escape.
fn pair(high: u16, bytes: &[u8]) -> Option<Escape>
    requires { IsHigh high }
    ensures value { result ≡ pair high bytes.now }
    ensures within { IfSome result (λ escape. escape.count ≤ length bytes.now + 5) }
    ensures ascii { IfSome result (λ escape. slice_index bytes.now (escape.count - 6) < 128) }
    ensures long { IfSome result (λ escape. escape.count ≡ 11) }
{
    let [b'\\', behind @ ..] = bytes else {
        return None;
    };
    let low = code_unit(behind)?;
    if low < 0xDC00 || low >= 0xE000 {
        return None;
    }
    let code = 0x10000 + (u32::from(high - 0xD800) * 0x400 + u32::from(low - 0xDC00));
    Some(Escape {
        character: char::from_u32(code)?,
        count: 11,
    })
}

/// The character of an escape `\uXXXX`, or of two that are a pair of surrogates.
fn unit(bytes: &[u8]) -> Option<Escape>
    requires { 0 < length bytes.now }
    ensures value { result ≡ unit (code_unit bytes.now) (drop 5 bytes.now) }
    ensures within { IfSome result (λ escape. escape.count ≤ length bytes.now) }
    ensures some { IfSome result (λ escape. 0 < escape.count) }
    ensures ascii { IfSome result (λ escape. slice_index bytes.now (escape.count - 1) < 128) }
{
    let unit = code_unit(bytes)?;
    if unit >= 0xD800 && unit < 0xDC00 {
        return pair(unit, &bytes[5..]);
    }
    Some(Escape {
        character: char::from_u32(u32::from(unit))?,
        count: 5,
    })
}

/// The escape that stands behind a backslash.
pub fn escape_at(bytes: &[u8]) -> Option<Escape>
    ensures value { result ≡ escape bytes.now }
    ensures within { IfSome result (λ escape. escape.count ≤ length bytes.now) }
    ensures some { IfSome result (λ escape. 0 < escape.count) }
    ensures ascii { IfSome result (λ escape. slice_index bytes.now (escape.count - 1) < 128) }
{
    match bytes {
        [] => None,
        [b'u', ..] => unit(bytes),
        [letter, ..] => Some(Escape {
            character: short_escape(*letter)?,
            count: 1,
        }),
    }
}
