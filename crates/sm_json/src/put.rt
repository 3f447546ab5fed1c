// Strings and integers of JSON, written into bytes that are there already.
ghost use Rattle.std.specs.Prelude.{◌≡◌, ◌+◌, ◌≤◌, [], ◌∷◌, ◌++◌, length, take};
ghost use Rattle.std.specs.Fmt.{signed_decimal};
ghost use Rattle.sm_bytes.specs.Ascii.{colon};
ghost use Rattle.sm_json.specs.Written.{written_byte, written_bytes, written_text};

use crate::byte_form::{ByteForm, Unescaped, form_of, hex_digit};
use crate::plain::is_plain;
use itoa::Buffer;
use sm_bytes::{place_byte, place_slice, run_len};
use sm_tree::Text;

fn place_escape(buf: &mut [u8], at: usize, byte: u8) -> usize
    requires room { at + length (written_byte byte) ≤ length buf.old }
    ensures bytes { take result buf.new ≡ take at buf.old ++ written_byte byte }
    ensures next { result ≡ at + length (written_byte byte) }
{
    match form_of(byte) {
        ByteForm::Plain => place_byte(buf, at, byte),
        ByteForm::Letter(letter) => place_slice(buf, at, &[b'\\', letter]),
        ByteForm::Digits => {
            let (high, low) = (hex_digit(byte / 16), hex_digit(byte % 16));
            place_slice(buf, at, &[b'\\', b'u', b'0', b'0', high, low])
        }
    }
}

// What stands between the quotes.
fn place_escaped(buf: &mut [u8], at: usize, text: &[u8]) -> usize
    requires room { at + length (written_bytes text.now) ≤ length buf.old }
    ensures bytes { take result buf.new ≡ take at buf.old ++ written_bytes text.now }
    ensures next { result ≡ at + length (written_bytes text.now) }
{
    if is_plain(text) {
        return place_slice(buf, at, text);
    }
    let mut at = at;
    let mut rest = text;
    loop {
        let (plain, more) = rest.split_at(run_len::<Unescaped>(rest));
        at = place_slice(buf, at, plain);
        let Some((byte, after)) = more.split_first() else {
            return at;
        };
        at = place_escape(buf, at, *byte);
        rest = after;
    }
}

/// Places a text as a string of JSON (RFC 8259, section 7), as `write_tree` writes it, and gives the place behind it. No memory.
pub fn place_text(buf: &mut [u8], at: usize, text: &Text) -> usize
    requires room { at + length (written_text text.now) ≤ length buf.old }
    ensures bytes { take result buf.new ≡ take at buf.old ++ written_text text.now }
    ensures next { result ≡ at + length (written_text text.now) }
{
    let at = place_byte(buf, at, b'"');
    let at = place_escaped(buf, at, text.as_str().as_bytes());
    place_byte(buf, at, b'"')
}

// A name of an object, with its colon.
pub(crate) fn place_name(buf: &mut [u8], at: usize, name: &Text) -> usize
    requires room { at + length (written_text name.now) + 1 ≤ length buf.old }
    ensures bytes { take result buf.new ≡ take at buf.old ++ (written_text name.now ++ colon ∷ []) }
    ensures next { result ≡ at + length (written_text name.now) + 1 }
{
    let at = place_text(buf, at, name);
    place_byte(buf, at, b':')
}

pub(crate) fn place_int(buf: &mut [u8], at: usize, value: i64) -> usize
    requires room { at + length (signed_decimal value) ≤ length buf.old }
    ensures bytes { take result buf.new ≡ take at buf.old ++ signed_decimal value }
    ensures next { result ≡ at + length (signed_decimal value) }
{
    let mut digits = Buffer::new();
    place_slice(buf, at, digits.format(value).as_bytes())
}
