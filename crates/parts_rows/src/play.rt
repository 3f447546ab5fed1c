// The answer to each case.
use crate::routes::route;
use crate::show::{show_entry, show_text};
use crate::values::value_at;
use rows::{bytes_shown, push_comma};
use sm_parts::{
    HeaderCut, decoded, entries, path_of, put_escaped, put_escaped_path, query_of, query_pairs,
};
use sm_tree::NoMemory;
use std::alloc::Global;

/// Appends the answer to a case: behind a word that ends in `-bytes` stand pairs of digits, behind another one the text itself.
pub fn answer_to(alloc: Global, row: &str, out: &mut String) -> Result<(), NoMemory> {
    let (word, rest) = match row.split_once(' ') {
        Some((word, rest)) => (word, rest),
        None => (row, ""),
    };
    if word == "route" {
        return route(alloc, rest, out);
    }
    match word.strip_suffix("-bytes") {
        Some(word) => match bytes_shown(alloc, rest)? {
            Some(bytes) => answer(alloc, word, &bytes, out),
            None => Ok(out.push_str("no bytes")?),
        },
        None => answer(alloc, word, rest.as_bytes(), out),
    }
}

fn answer(alloc: Global, word: &str, bytes: &[u8], out: &mut String) -> Result<(), NoMemory> {
    match cut_named(word) {
        Some(cut) => return list(alloc, cut, bytes, out),
        None => {}
    }
    if word == "decode" {
        return show_text(decoded(alloc, bytes)?.as_slice(), out);
    }
    if word == "escape" {
        return put_escaped(out, bytes);
    }
    if word == "escape-path" {
        return put_escaped_path(out, bytes);
    }
    if word == "path" {
        return show_text(path_of(bytes), out);
    }
    if word == "query" {
        return query(alloc, bytes, out);
    }
    value_at(alloc, word, bytes, out)
}

fn cut_named(word: &str) -> Option<HeaderCut> {
    if word == "texts" {
        return Some(HeaderCut::Quoted);
    }
    if word == "list" {
        return Some(HeaderCut::EachComma);
    }
    if word == "dates" {
        return Some(HeaderCut::EverySecondComma);
    }
    None
}

// The entries of a list.
fn list(alloc: Global, cut: HeaderCut, bytes: &[u8], out: &mut String) -> Result<(), NoMemory> {
    let entries = entries(alloc, cut, bytes)?;
    let mut is_first = true;
    out.push('[')?;
    for entry in entries.as_slice() {
        push_comma(&mut is_first, out)?;
        show_entry(entry, out)?;
    }
    Ok(out.push(']')?)
}

// The pairs of a target's query.
fn query(alloc: Global, target: &[u8], out: &mut String) -> Result<(), NoMemory> {
    let pairs = query_pairs(alloc, query_of(target))?;
    let mut is_first = true;
    out.push('[')?;
    for pair in pairs.as_slice() {
        push_comma(&mut is_first, out)?;
        show_text(pair.0.as_slice(), out)?;
        out.push('=')?;
        show_text(pair.1.as_slice(), out)?;
    }
    Ok(out.push(']')?)
}
