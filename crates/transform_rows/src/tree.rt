// Trees as they are printed.
use sm_tree::{NoMemory, Text, Tree};
use std::alloc::Global;
use std::fmt::Write;
use std::str::from_utf8;

// Appends a text as a JSON string.
fn show_text(alloc: Global, text: &str, out: &mut String) -> Result<(), NoMemory> {
    let mut written = Vec::new(alloc);
    sm_json::write_tree(alloc, &Tree::Text(Text::copy(alloc, text)?), &mut written)?;
    match from_utf8(&written) {
        Ok(written) => Ok(out.push_str(written)?),
        Err(_) => Ok(out.push_str("no UTF-8")?),
    }
}

// Appends a tree that has no parts.
fn show_leaf(alloc: Global, leaf: &Tree, out: &mut String) -> Result<(), NoMemory> {
    match leaf {
        Tree::Null => Ok(out.push_str("null")?),
        Tree::Bool(value) => Ok(write!(out, "{value}")?),
        Tree::Int(value) => Ok(write!(out, "{value}")?),
        Tree::Number(text) => Ok(out.push_str(text.as_str())?),
        Tree::Text(text) => show_text(alloc, text.as_str(), out),
        _ => Ok(out.push_str("no JSON")?),
    }
}

#[cycle(show)]
fn show_items(alloc: Global, items: &[Tree], out: &mut String) -> Result<(), NoMemory> {
    let mut is_first = true;
    for item in items {
        if !is_first {
            out.push(',')?;
        }
        is_first = false;
        show_tree(alloc, item, out)?;
    }
    Ok(())
}

#[cycle(show)]
fn show_pairs(alloc: Global, pairs: &[(Text, Tree)], out: &mut String) -> Result<(), NoMemory> {
    let mut is_first = true;
    for pair in pairs {
        if !is_first {
            out.push(',')?;
        }
        is_first = false;
        show_text(alloc, pair.0.as_str(), out)?;
        out.push(':')?;
        show_tree(alloc, &pair.1, out)?;
    }
    Ok(())
}

/// Appends a tree as JSON without blanks.
#[cycle(show)]
pub fn show_tree(alloc: Global, tree: &Tree, out: &mut String) -> Result<(), NoMemory> {
    match tree {
        Tree::List(items) => {
            out.push('[')?;
            show_items(alloc, items.as_slice(), out)?;
            out.push(']')?;
        }
        Tree::Object(pairs) => {
            out.push('{')?;
            show_pairs(alloc, pairs.as_slice(), out)?;
            out.push('}')?;
        }
        leaf => show_leaf(alloc, leaf, out)?,
    }
    Ok(())
}
