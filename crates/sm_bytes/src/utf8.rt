// Characters in UTF-8 (RFC 3629, section 4), byte by byte: what must come behind some bytes of a text, for readers that
// take a text in pieces, or one whose length is told before it.
ghost use Rattle.std.specs.Prelude.{◌≡◌, ℕ, ◌≤◌, ◌&&◌, nat_le, nat_lt, IsUtf8, length, take};
ghost use Rattle.sm_bytes.specs.Utf8.{behind_second as place_behind, step, owed as bytes_owed, least_second, greatest_second};

use std::str::from_utf8;

/// What must come behind some bytes of a text in UTF-8.
#[derive(Clone, Copy, PartialEq, Eq, Debug, Drop)]
pub enum Utf8 {
    /// Another character, or the end of the text.
    Between,
    /// The second byte of a character that begins with this one.
    Second(u8),
    /// The last two bytes of a character.
    LastTwo,
    /// The last byte of a character.
    Last,
}

/// Whether a byte may stand behind the second one of a character.
pub fn is_tail(byte: u8) -> bool
    ensures { result ≡ nat_le 0x80 byte && nat_lt byte 0xC0 }
{
    0x80 <= byte && byte < 0xC0
}

/// Whether a byte may begin a character of more than one.
pub fn is_lead(byte: u8) -> bool
    ensures { result ≡ nat_le 0xC2 byte && nat_lt byte 0xF5 }
{
    0xC2 <= byte && byte < 0xF5
}

/// Whether a byte may be the second one of a character that begins with `lead`.
pub fn is_second(lead: u8, byte: u8) -> bool
    ensures { result ≡ nat_le (least_second lead) byte && nat_le byte (greatest_second lead) }
{
    match lead {
        0xE0 => 0xA0 <= byte && byte <= 0xBF,
        0xF0 => 0x90 <= byte && byte <= 0xBF,
        0xED => 0x80 <= byte && byte <= 0x9F,
        0xF4 => 0x80 <= byte && byte <= 0x8F,
        _ => 0x80 <= byte && byte <= 0xBF,
    }
}

// The place behind the second byte of a character that begins with `lead`.
fn behind_second(lead: u8) -> Utf8
    ensures { result ≡ place_behind lead }
{
    if lead < 0xE0 {
        Utf8::Between
    } else if lead < 0xF0 {
        Utf8::Last
    } else {
        Utf8::LastTwo
    }
}

impl Utf8 {
    /// How many bytes of a character that has begun must still come.
    pub fn owed(self) -> u64
        ensures { result ≡ bytes_owed self }
    {
        match self {
            Utf8::Between => 0,
            Utf8::Last => 1,
            Utf8::LastTwo => 2,
            Utf8::Second(lead) => {
                if lead < 0xE0 {
                    1
                } else if lead < 0xF0 {
                    2
                } else {
                    3
                }
            }
        }
    }

    /// The place behind one more byte. None where no text goes on with it.
    pub fn next(self, byte: u8) -> Option<Utf8>
        ensures { result ≡ step self byte }
    {
        match self {
            Utf8::Between if byte < 0x80 => Some(Utf8::Between),
            Utf8::Between if 0xC2 <= byte && byte < 0xF5 => Some(Utf8::Second(byte)),
            Utf8::Second(lead) if is_second(lead, byte) => Some(behind_second(lead)),
            Utf8::LastTwo if is_tail(byte) => Some(Utf8::Last),
            Utf8::Last if is_tail(byte) => Some(Utf8::Between),
            _ => None,
        }
    }
}

/// How many bytes are whole characters from the first one on: the length of the longest prefix that is UTF-8.
pub fn whole_len(bytes: &[u8]) -> usize
    ensures within { result ≤ length bytes.now }
    ensures utf8 { IsUtf8 (take result bytes.now) }
    ensures longest { (len : ℕ) → len ≤ length bytes.now → IsUtf8 (take len bytes.now) → len ≤ result }
{
    match from_utf8(bytes) {
        Ok(_) => bytes.len(),
        Err(error) => error.valid_up_to(),
    }
}
