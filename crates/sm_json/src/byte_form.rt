// Which bytes of a string are escaped in JSON (RFC 8259, section 7), and how.
ghost use Rattle.std.specs.Prelude.{◌≡◌, ◌<◌};
ghost use Rattle.sm_json.specs.steps.Placing.{HasForm};
ghost use Rattle.sm_json.specs.Written.{hex_digit};

use sm_bytes::ByteClass;

// How a byte of a string is written.
#[derive(Clone, Copy, Drop)]
pub(crate) enum ByteForm {
    // As itself.
    Plain,
    // By a backslash and this letter.
    Letter(u8),
    // By `\u` and four hexadecimal digits.
    Digits,
}

// The bytes of a string that stand for themselves.
pub(crate) struct Unescaped;

impl ByteClass for Unescaped {
    ghost use Rattle.sm_json.specs.steps.Placing.{is_unescaped};

    ghost holds = { is_unescaped };

    #[inline(always)]
    fn has(byte: u8) -> bool {
        !(byte < 0x20 || byte == b'"' || byte == b'\\')
    }
}

pub(crate) fn form_of(byte: u8) -> ByteForm
    ensures { HasForm result byte }
{
    match byte {
        b'"' | b'\\' => ByteForm::Letter(byte),
        0x08 => ByteForm::Letter(b'b'),
        0x0c => ByteForm::Letter(b'f'),
        b'\n' => ByteForm::Letter(b'n'),
        b'\r' => ByteForm::Letter(b'r'),
        b'\t' => ByteForm::Letter(b't'),
        0..=0x1f => ByteForm::Digits,
        _ => ByteForm::Plain,
    }
}

// The hexadecimal digit of a number below 16, in lower case.
pub(crate) fn hex_digit(digit: u8) -> u8
    requires { digit < 16 }
    ensures { result ≡ hex_digit digit }
{
    if digit < 10 {
        b'0' + digit
    } else {
        b'a' - 10 + digit
    }
}
