// The bytes of a row: text as it stands, escapes, and repetitions.
ghost use Rattle.std.specs.Prelude.{◌≡◌, ◌/◌, ◌%◌, IfSome, Some};
ghost use Rattle.sm_bytes.specs.Escapes.{hex_value};

use sm_bytes::hex_value;
use sm_tree::NoMemory;
use std::alloc::Global;

// The byte that two hexadecimal digits show.
fn shown_byte(high: u8, low: u8) -> Option<u8>
    ensures high { IfSome result (λ byte. hex_value high ≡ Some (byte / 16)) }
    ensures low { IfSome result (λ byte. hex_value low ≡ Some (byte % 16)) }
{
    let (high, low) = (hex_value(high)?, hex_value(low)?);
    Some((high * 16 + low) as u8)
}

// The byte that an escape stands for, behind its backslash, and what follows it.
fn escape_of(text: &[u8]) -> Option<(u8, &[u8])> {
    match text {
        [b'r', rest @ ..] => Some((b'\r', rest)),
        [b'n', rest @ ..] => Some((b'\n', rest)),
        [b't', rest @ ..] => Some((b'\t', rest)),
        [b'x', high, low, rest @ ..] => Some((shown_byte(*high, *low)?, rest)),
        _ => None,
    }
}

// The bytes of a text with escapes, or `None` where a backslash begins none.
fn unescaped(alloc: Global, text: &str) -> Result<Option<Vec<u8>>, NoMemory> {
    let mut bytes = Vec::new(alloc);
    let mut is_plain = true;
    for part in text.split('\\') {
        if is_plain {
            bytes.extend_from_slice(part.as_bytes())?;
            is_plain = false;
            continue;
        }
        let Some((byte, rest)) = escape_of(part.as_bytes()) else {
            return Ok(None);
        };
        bytes.push(byte)?;
        bytes.extend_from_slice(rest)?;
    }
    Ok(Some(bytes))
}

// The bytes of a repetition behind its bracket, `a*300)`, and of the text behind it.
fn repeated(alloc: Global, text: &str) -> Result<Option<Vec<u8>>, NoMemory> {
    let Some((inside, behind)) = text.split_once(')') else {
        return Ok(None);
    };
    let Some((unit, count)) = inside.rsplit_once('*') else {
        return Ok(None);
    };
    let Ok(count) = count.parse::<u32>() else {
        return Ok(None);
    };
    let (Some(unit), Some(behind)) = (unescaped(alloc, unit)?, unescaped(alloc, behind)?) else {
        return Ok(None);
    };
    let mut bytes = Vec::new(alloc);
    for _ in 0..count {
        bytes.extend_from_slice(&unit)?;
    }
    bytes.extend_from_slice(&behind)?;
    Ok(Some(bytes))
}

/// The bytes of a row, or `None` where it isn't in the notation: `\r`, `\n`, `\t`, `\x1f`, and `\(a*300)` for repetition.
///
/// # Errors
///
/// `NoMemory`.
pub fn given(alloc: Global, text: &str) -> Result<Option<Vec<u8>>, NoMemory> {
    let mut bytes = Vec::new(alloc);
    let mut is_plain = true;
    for part in text.split("\\(") {
        let found = if is_plain {
            unescaped(alloc, part)?
        } else {
            repeated(alloc, part)?
        };
        is_plain = false;
        let Some(found) = found else {
            return Ok(None);
        };
        bytes.extend_from_slice(&found)?;
    }
    Ok(Some(bytes))
}
