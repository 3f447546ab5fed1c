// The bytes of a side of a row: text as it stands, where `|` is CR LF, and pairs of hexadecimal digits in `\{..}`.
use rows::bytes_shown;
use sm_tree::NoMemory;
use std::alloc::Global;

// Appends a text, where `|` is CR LF.
fn push_plain(text: &str, bytes: &mut Vec<u8>) -> Result<(), NoMemory> {
    let mut is_first = true;
    for part in text.split('|') {
        if !is_first {
            bytes.extend_from_slice(b"\r\n")?;
        }
        is_first = false;
        bytes.extend_from_slice(part.as_bytes())?;
    }
    Ok(())
}

// Appends what stands behind `\{`: pairs of digits, the bracket's end, and a text. Says whether it is written so.
fn push_shown(alloc: Global, part: &str, bytes: &mut Vec<u8>) -> Result<bool, NoMemory> {
    let Some((pairs, text)) = part.split_once('}') else {
        return Ok(false);
    };
    let Some(shown) = bytes_shown(alloc, pairs)? else {
        return Ok(false);
    };
    bytes.extend_from_slice(&shown)?;
    push_plain(text, bytes)?;
    Ok(true)
}

/// The bytes of a side, or `None` where it isn't in the notation.
///
/// # Errors
///
/// `NoMemory`.
pub fn given(alloc: Global, side: &str) -> Result<Option<Vec<u8>>, NoMemory> {
    let mut bytes = Vec::new(alloc);
    let mut is_first = true;
    for part in side.split("\\{") {
        if is_first {
            push_plain(part, &mut bytes)?;
        } else if !push_shown(alloc, part, &mut bytes)? {
            return Ok(None);
        }
        is_first = false;
    }
    Ok(Some(bytes))
}
