// Trees, bytes and refusals as a person reads them. A tree is shown in the diagnostic notation of CBOR (RFC 8949, section 8).
use rows::{push_comma, push_utf8, show_byte, show_bytes};
use sm_tree::{Bytes, NoMemory, SyntaxRefusal, Text, Tree};
use std::alloc::Global;

// Appends a range of bytes.
fn show_range(first: u8, last: u8, out: &mut String) -> Result<(), NoMemory> {
    if !out.ends_with(' ') {
        out.push(' ')?;
    }
    show_byte(first, out)?;
    if first != last {
        out.push('-')?;
        show_byte(last, out)?;
    }
    Ok(())
}

/// Appends the ranges that bytes make up, which rise.
pub fn show_ranges(bytes: &[u8], out: &mut String) -> Result<(), NoMemory> {
    let mut range: Option<(u8, u8)> = None;
    for byte in bytes {
        range = match range {
            Some((first, last)) if *byte == last.saturating_add(1) => Some((first, *byte)),
            Some((first, last)) => {
                show_range(first, last, out)?;
                Some((*byte, *byte))
            }
            None => Some((*byte, *byte)),
        };
    }
    match range {
        Some((first, last)) => show_range(first, last, out),
        None => Ok(()),
    }
}

/// Appends the text as a JSON string.
pub fn show_text(alloc: Global, text: &str, out: &mut String) -> Result<(), NoMemory> {
    let mut written = Vec::new(alloc);
    sm_json::write_tree(alloc, &Tree::Text(Text::copy(alloc, text)?), &mut written)?;
    push_utf8(&written, out)
}

/// Appends why bytes are refused.
pub fn show_refusal(refusal: SyntaxRefusal, out: &mut String) -> Result<(), NoMemory> {
    match refusal {
        SyntaxRefusal::Bad(at) => write!(out, "Syntax Bad {at}")?,
        SyntaxRefusal::Ended => out.push_str("Syntax Ended")?,
        SyntaxRefusal::TooDeep(at) => write!(out, "Syntax TooDeep {at}")?,
        SyntaxRefusal::KeyKind(at) => write!(out, "Syntax KeyKind {at}")?,
        SyntaxRefusal::NoMemory => out.push_str("NoMemory")?,
    }
    Ok(())
}

fn show_string(bytes: &Bytes, out: &mut String) -> Result<(), NoMemory> {
    out.push_str("h'")?;
    show_bytes(bytes.as_slice(), out)?;
    out.push('\'')?;
    Ok(())
}

#[cycle(show)]
fn show_entries(alloc: Global, items: &[Tree], out: &mut String) -> Result<(), NoMemory> {
    let mut is_first = true;
    for item in items {
        push_comma(&mut is_first, out)?;
        show_tree(alloc, item, out)?;
    }
    Ok(())
}

#[cycle(show)]
fn show_pairs(alloc: Global, pairs: &[(Text, Tree)], out: &mut String) -> Result<(), NoMemory> {
    let mut is_first = true;
    for pair in pairs {
        push_comma(&mut is_first, out)?;
        show_text(alloc, pair.0.as_str(), out)?;
        out.push_str(": ")?;
        show_tree(alloc, &pair.1, out)?;
    }
    Ok(())
}

/// Appends a tree. A number that is no integer of 64 bits stands in `number()`, a float or simple value by its first byte in
/// `opaque()`.
#[cycle(show)]
pub fn show_tree(alloc: Global, tree: &Tree, out: &mut String) -> Result<(), NoMemory> {
    match tree {
        Tree::Null => out.push_str("null")?,
        Tree::Bool(value) => write!(out, "{value}")?,
        Tree::Int(value) => write!(out, "{value}")?,
        Tree::Number(text) => write!(out, "number({})", text.as_str())?,
        Tree::Text(text) => show_text(alloc, text.as_str(), out)?,
        Tree::Bytes(bytes) => show_string(bytes, out)?,
        Tree::Tag(number, content) => {
            write!(out, "{number}(")?;
            show_tree(alloc, content, out)?;
            out.push(')')?;
        }
        Tree::Opaque(byte) => write!(out, "opaque({byte:02x})")?,
        Tree::List(items) => {
            out.push('[')?;
            show_entries(alloc, items.as_slice(), out)?;
            out.push(']')?;
        }
        Tree::Object(pairs) => {
            out.push('{')?;
            show_pairs(alloc, pairs.as_slice(), out)?;
            out.push('}')?;
        }
    }
    Ok(())
}
