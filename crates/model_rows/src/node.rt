// Nodes of statements as a person reads them: JSON with blanks, in which an id stands without quotes.
use rows::push_comma;
use sm_model::RawNode;
use sm_tree::{NoMemory, Text, Tree};
use std::alloc::Global;
use std::str::from_utf8;

/// Appends a text as a JSON string.
pub fn show_text(alloc: Global, text: &str, out: &mut String) -> Result<(), NoMemory> {
    let mut written = Vec::new(alloc);
    sm_json::write_tree(alloc, &Tree::Text(Text::copy(alloc, text)?), &mut written)?;
    match from_utf8(&written) {
        Ok(written) => Ok(out.push_str(written)?),
        Err(_) => Ok(out.push_str("no UTF-8")?),
    }
}

// Appends a tree that has no parts. A number that is no integer of 64 bits stands in `number()`.
fn show_leaf(alloc: Global, leaf: &Tree, out: &mut String) -> Result<(), NoMemory> {
    match leaf {
        Tree::Null => Ok(out.push_str("null")?),
        Tree::Bool(value) => Ok(write!(out, "{value}")?),
        Tree::Int(value) => Ok(write!(out, "{value}")?),
        Tree::Number(text) => Ok(write!(out, "number({})", text.as_str())?),
        Tree::Text(text) => show_text(alloc, text.as_str(), out),
        _ => Ok(out.push_str("no leaf")?),
    }
}

#[cycle(show)]
fn show_entries(alloc: Global, items: &[RawNode], out: &mut String) -> Result<(), NoMemory> {
    let mut is_first = true;
    for item in items {
        push_comma(&mut is_first, out)?;
        show_node(alloc, item, out)?;
    }
    Ok(())
}

#[cycle(show)]
fn show_pairs(alloc: Global, pairs: &[(Text, RawNode)], out: &mut String) -> Result<(), NoMemory> {
    let mut is_first = true;
    for pair in pairs {
        push_comma(&mut is_first, out)?;
        show_text(alloc, pair.0.as_str(), out)?;
        out.push_str(": ")?;
        show_node(alloc, &pair.1, out)?;
    }
    Ok(())
}

/// Appends a node.
#[cycle(show)]
pub fn show_node(alloc: Global, node: &RawNode, out: &mut String) -> Result<(), NoMemory> {
    match node {
        RawNode::Leaf(leaf) => show_leaf(alloc, leaf, out)?,
        RawNode::Id(id) => out.push_str(id.text.as_str())?,
        RawNode::List(items) => {
            out.push('[')?;
            show_entries(alloc, items.as_slice(), out)?;
            out.push(']')?;
        }
        RawNode::Object(pairs) => {
            out.push('{')?;
            show_pairs(alloc, pairs.as_slice(), out)?;
            out.push('}')?;
        }
    }
    Ok(())
}
