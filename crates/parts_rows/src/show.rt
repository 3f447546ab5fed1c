// Bytes as a person reads them.
use rows::show_bytes;
use sm_parts::ListEntry;
use sm_tree::NoMemory;

/// Appends a text between quotation marks, as it is; bytes that are none as pairs of digits between `<` and `>`.
pub fn show_text(bytes: &[u8], out: &mut String) -> Result<(), NoMemory> {
    match std::str::from_utf8(bytes) {
        Ok(text) => {
            out.push('"')?;
            out.push_str(text)?;
            Ok(out.push('"')?)
        }
        Err(_) => {
            out.push('<')?;
            show_bytes(bytes, out)?;
            Ok(out.push('>')?)
        }
    }
}

/// Appends what stands in a list.
pub fn show_entry(entry: &ListEntry, out: &mut String) -> Result<(), NoMemory> {
    match entry {
        ListEntry::Text(text) => show_text(text.as_slice(), out),
        ListEntry::NoEntry => Ok(out.push_str("no entry")?),
    }
}
