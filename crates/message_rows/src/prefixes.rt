// A message cut off at each place.
use crate::show::refusal_word;
use crate::written::message_of;
use sm_http::MessageSide;
use sm_tree::NoMemory;
use std::alloc::Global;

// What is read from a stream of these bytes: a message, none, or a refusal.
fn word_of(alloc: Global, side: MessageSide, bytes: &[u8]) -> Result<&'static str, NoMemory> {
    match message_of(alloc, side, bytes)? {
        Ok(Some(_)) => Ok("read"),
        Ok(None) => Ok("none"),
        Err(refusal) => Ok(refusal_word(refusal)),
    }
}

// Appends how many prefixes in a row have a word.
fn show_run(word: &str, count: u32, out: &mut String) -> Result<(), NoMemory> {
    if !out.ends_with(' ') {
        out.push_str(", ")?;
    }
    Ok(write!(out, "{count} {word}")?)
}

/// Appends what is read from each prefix of the bytes, the empty one first and all of them last, behind a blank.
///
/// # Errors
///
/// `NoMemory`.
pub fn show_prefixes(
    alloc: Global,
    side: MessageSide,
    bytes: &[u8],
    out: &mut String,
) -> Result<(), NoMemory> {
    let mut run: Option<(&'static str, u32)> = None;
    for len in 0..=bytes.len() {
        let word = word_of(alloc, side, &bytes[..len])?;
        run = match run {
            Some((last, count)) if last == word => Some((last, count.saturating_add(1))),
            Some((last, count)) => {
                show_run(last, count, out)?;
                Some((word, 1))
            }
            None => Some((word, 1)),
        };
    }
    match run {
        Some((last, count)) => show_run(last, count, out),
        None => Ok(()),
    }
}
