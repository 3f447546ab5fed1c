// Heads and strings of CBOR, written into bytes that are there already, from a place on: the next place comes back, and
// what lies behind it may change.
ghost use Rattle.std.specs.Prelude.{◌≡◌, ◌+◌, ◌<◌, ◌≤◌, ◌++◌, length, take};
ghost use Rattle.sm_cbor.specs.Written.{int_type, int_argument, two_bytes, four_bytes, eight_bytes, written_head, written_int};
ghost use Rattle.sm_cbor.specs.Written.{written_text_item};

use crate::head::TEXT;
use sm_bytes::{place_byte, place_slice};
use sm_tree::Text;

// A number in two bytes.
fn place_two(buf: &mut [u8], at: usize, value: u64) -> usize
    requires room { at + 2 ≤ length buf.old }
    requires small { value < 65536 }
    ensures bytes { take result buf.new ≡ take at buf.old ++ two_bytes value }
    ensures next { result ≡ at + 2 }
{
    let at = place_byte(buf, at, (value / 256) as u8);
    place_byte(buf, at, (value % 256) as u8)
}

// A number in four bytes.
fn place_four(buf: &mut [u8], at: usize, value: u64) -> usize
    requires room { at + 4 ≤ length buf.old }
    requires small { value < 4294967296 }
    ensures bytes { take result buf.new ≡ take at buf.old ++ four_bytes value }
    ensures next { result ≡ at + 4 }
{
    let at = place_two(buf, at, value / 65536);
    place_two(buf, at, value % 65536)
}

// A number in eight bytes.
fn place_eight(buf: &mut [u8], at: usize, value: u64) -> usize
    requires room { at + 8 ≤ length buf.old }
    ensures bytes { take result buf.new ≡ take at buf.old ++ eight_bytes value }
    ensures next { result ≡ at + 8 }
{
    let at = place_four(buf, at, value / 4294967296);
    place_four(buf, at, value % 4294967296)
}

/// The shortest head of this major type with this argument (RFC 8949, section 3).
pub(crate) fn place_head(buf: &mut [u8], at: usize, major: u8, value: u64) -> usize
    requires room { at + length (written_head major value) ≤ length buf.old }
    requires major { major < 8 }
    ensures bytes { take result buf.new ≡ take at buf.old ++ written_head major value }
    ensures next { result ≡ at + length (written_head major value) }
{
    if value < 24 {
        return place_byte(buf, at, major * 32 + value as u8);
    }
    if value < 256 {
        let at = place_byte(buf, at, major * 32 + 24);
        return place_byte(buf, at, value as u8);
    }
    if value < 65536 {
        let at = place_byte(buf, at, major * 32 + 25);
        return place_two(buf, at, value);
    }
    if value < 4294967296 {
        let at = place_byte(buf, at, major * 32 + 26);
        return place_four(buf, at, value);
    }
    let at = place_byte(buf, at, major * 32 + 27);
    place_eight(buf, at, value)
}

/// The argument of an integer's head: the integer, or -1 less it.
pub(crate) fn argument_of(value: i64) -> u64
    ensures { result ≡ int_argument value }
{
    if value < 0 {
        (-1 - value) as u64
    } else {
        value as u64
    }
}

/// The major type of an integer.
fn type_of(value: i64) -> u8
    ensures major { result ≡ int_type value }
    ensures small { result < 8 }
{
    if value < 0 { 1 } else { 0 }
}

pub(crate) fn place_int(buf: &mut [u8], at: usize, value: i64) -> usize
    requires room { at + length (written_int value) ≤ length buf.old }
    ensures bytes { take result buf.new ≡ take at buf.old ++ written_int value }
    ensures next { result ≡ at + length (written_int value) }
{
    place_head(buf, at, type_of(value), argument_of(value))
}

/// A string of this major type, with its head.
pub(crate) fn place_string(buf: &mut [u8], at: usize, major: u8, bytes: &[u8]) -> usize
    requires room { at + length (written_head major (length bytes.now) ++ bytes.now) ≤ length buf.old }
    requires major { major < 8 }
    ensures bytes { take result buf.new ≡ take at buf.old ++ (written_head major (length bytes.now) ++ bytes.now) }
    ensures next { result ≡ at + length (written_head major (length bytes.now) ++ bytes.now) }
{
    let at = place_head(buf, at, major, bytes.len() as u64);
    place_slice(buf, at, bytes)
}

pub(crate) fn place_text(buf: &mut [u8], at: usize, text: &Text) -> usize
    requires room { at + length (written_text_item text.now) ≤ length buf.old }
    ensures bytes { take result buf.new ≡ take at buf.old ++ written_text_item text.now }
    ensures next { result ≡ at + length (written_text_item text.now) }
{
    place_string(buf, at, TEXT, text.as_str().as_bytes())
}
