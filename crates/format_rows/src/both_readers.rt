// Both readers of CBOR over all bytes that are short: no clause says that the first of them, recursive descent, reads each item.
use crate::given::{Notation, given};
use sm_cbor::readers::{Unread, read_by_bytes, read_item};
use sm_tree::NoMemory;
use std::alloc::Global;

// Whether bytes are an item, or `None` where the two readers differ or are out of memory.
fn is_item(alloc: Global, bytes: &[u8]) -> Option<bool> {
    match (read_item(alloc, bytes), read_by_bytes(alloc, bytes)) {
        (Ok(first), Ok(second)) => { if first == second { Some(true) } else { None } }
        (Err(Unread::GaveUp), Err(_)) => Some(false),
        _ => None,
    }
}

// How many second bytes make an item behind a first one, or `None` where the readers differ on one.
fn items_with(
    alloc: Global,
    before: &[u8],
    first: u8,
    behind: &[u8],
) -> Result<Option<u32>, NoMemory> {
    let mut count: u32 = 0;
    for second in 0..=255u8 {
        let mut bytes = before.to_vec(alloc)?;
        bytes.extend_from_slice(&[first, second])?;
        bytes.extend_from_slice(behind)?;
        match is_item(alloc, &bytes) {
            Some(true) => count = count.saturating_add(1),
            Some(false) => {}
            None => return Ok(None),
        }
    }
    Ok(Some(count))
}

/// Appends how many of all two bytes make an item, put between those of the text before and behind its bar.
pub fn cbor_two(alloc: Global, text: &str, out: &mut String) -> Result<(), NoMemory> {
    let (before, behind) = text.split_once('|').unwrap_or((text, ""));
    let Some(before) = given(alloc, Notation::Pairs, before)? else {
        return Ok(out.push_str("no bytes")?);
    };
    let Some(behind) = given(alloc, Notation::Pairs, behind)? else {
        return Ok(out.push_str("no bytes")?);
    };
    let mut count: u32 = 0;
    for first in 0..=255u8 {
        match items_with(alloc, &before, first, &behind)? {
            Some(items) => count = count.saturating_add(items),
            None => return Ok(write!(out, "the readers differ behind {first:02x}")?),
        }
    }
    Ok(write!(out, "{count} items")?)
}
