// Bytes as pairs of hexadecimal digits, shown and read, and the words of orders.
ghost use Rattle.std.specs.Prelude.{◌≡◌, ◌/◌, ◌%◌, IfSome, Some};
ghost use Rattle.sm_bytes.specs.Escapes.{hex_value};

use sm_bytes::hex_value;
use sm_tree::NoMemory;
use std::alloc::Global;
use std::cmp::Ordering;

/// Appends a byte as two hexadecimal digits.
///
/// # Errors
///
/// `NoMemory`.
pub fn show_byte(byte: u8, out: &mut String) -> Result<(), NoMemory> {
    Ok(write!(out, "{byte:02x}")?)
}

/// Appends pairs of hexadecimal digits, with a blank between two.
///
/// # Errors
///
/// `NoMemory`.
pub fn show_bytes(bytes: &[u8], out: &mut String) -> Result<(), NoMemory> {
    for (at, byte) in bytes.iter().enumerate() {
        if at > 0 {
            out.push(' ')?;
        }
        show_byte(*byte, out)?;
    }
    Ok(())
}

/// Appends bytes that are a text, or their pairs of digits where they are none.
///
/// # Errors
///
/// `NoMemory`.
pub fn push_utf8(bytes: &[u8], out: &mut String) -> Result<(), NoMemory> {
    match std::str::from_utf8(bytes) {
        Ok(text) => Ok(out.push_str(text)?),
        Err(_) => show_bytes(bytes, out),
    }
}

/// The bytes that pairs of digits in words show, where each word perhaps has a count: `5b*100` is a hundred times one byte, and
/// `612e*3` three times two bytes. `None` where no bytes are written so.
///
/// # Errors
///
/// `NoMemory`.
pub fn bytes_shown(alloc: Global, text: &str) -> Result<Option<Vec<u8>>, NoMemory> {
    let mut bytes = Vec::new(alloc);
    for word in text.split(' ') {
        let Some((digits, count)) = counted(word) else {
            return Ok(None);
        };
        let Some(shown) = shown(alloc, digits)? else {
            return Ok(None);
        };
        for _ in 0..count {
            bytes.extend_from_slice(&shown)?;
        }
    }
    Ok(Some(bytes))
}

// Digits, and how many times their bytes stand.
fn counted(word: &str) -> Option<(&str, u32)> {
    match word.split_once('*') {
        Some((digits, count)) => Some((digits, count.parse::<u32>().ok()?)),
        None => Some((word, 1)),
    }
}

// The bytes that pairs of digits show, one behind the other.
fn shown(alloc: Global, digits: &str) -> Result<Option<Vec<u8>>, NoMemory> {
    let mut bytes = Vec::new(alloc);
    for pair in digits.as_bytes().chunks(2) {
        match shown_by(pair) {
            Some(byte) => bytes.push(byte)?,
            None => return Ok(None),
        }
    }
    Ok(Some(bytes))
}

fn shown_by(pair: &[u8]) -> Option<u8> {
    match pair {
        [high, low] => shown_byte(*high, *low),
        _ => None,
    }
}

// The byte that two hexadecimal digits show.
fn shown_byte(high: u8, low: u8) -> Option<u8>
    ensures high { IfSome result (λ byte. hex_value high ≡ Some (byte / 16)) }
    ensures low { IfSome result (λ byte. hex_value low ≡ Some (byte % 16)) }
{
    let (high, low) = (hex_value(high)?, hex_value(low)?);
    Some((high * 16 + low) as u8)
}

/// Appends the word of an order.
///
/// # Errors
///
/// `NoMemory`.
pub fn show_order(order: Ordering, out: &mut String) -> Result<(), NoMemory> {
    Ok(out.push_str(match order {
        Ordering::Less => "less",
        Ordering::Equal => "equal",
        Ordering::Greater => "greater",
    })?)
}
