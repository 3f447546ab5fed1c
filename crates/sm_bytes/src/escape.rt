// Escapes in strings of JSON (RFC 8259, section 7): the letter of a short one, and hexadecimal digits.
ghost use Rattle.std.specs.Prelude.{◌≡◌, ◌<◌, IfSome, IsSome};
ghost use Rattle.sm_bytes.specs.Escapes.{short_escape, hex_value};

/// The character that a letter stands for behind a backslash, or `None` where it stands for none.
pub fn short_escape(byte: u8) -> Option<char>
    ensures value { result ≡ short_escape byte }
    ensures ascii { IsSome result → byte < 128 }
{
    match byte {
        b'"' => Some('"'),
        b'\\' => Some('\\'),
        b'/' => Some('/'),
        b'b' => Some('\u{8}'),
        b'f' => Some('\u{c}'),
        b'n' => Some('\n'),
        b'r' => Some('\r'),
        b't' => Some('\t'),
        _ => None,
    }
}

/// The value of a hexadecimal digit, in either case, or `None` where the byte is none.
pub fn hex_value(byte: u8) -> Option<u16>
    ensures value { result ≡ hex_value byte }
    ensures digit { IfSome result (λ digit. digit < 16) }
    ensures ascii { IsSome result → byte < 128 }
{
    match byte {
        b'0'..=b'9' => Some(u16::from(byte - b'0')),
        b'A'..=b'F' => Some(u16::from(byte - b'A' + 10)),
        b'a'..=b'f' => Some(u16::from(byte - b'a' + 10)),
        _ => None,
    }
}
