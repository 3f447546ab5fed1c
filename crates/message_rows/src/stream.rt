// What is read from a stream, as text.
use crate::pieces::{MessageWay, read_once};
use crate::show::{refusal_word, show_message};
use sm_http::{Held, HttpRefusal, MessageSide};
use sm_io::{ReadRefusal, Source, read_all};
use sm_tree::NoMemory;
use std::alloc::Global;

/// The most bytes that are counted behind messages.
const REST_LIMIT: u64 = 1 << 30;

// Appends how many bytes are held, or left in the source.
fn show_left<S: Source>(
    alloc: Global,
    source: &mut S,
    held: &Held,
    out: &mut String,
) -> Result<(), NoMemory> {
    match read_all(alloc, source, REST_LIMIT) {
        Ok(rest) => {
            let left = held.len().saturating_add(rest.len() as u64);
            write!(out, "left {left}")?;
        }
        Err(ReadRefusal::Failed) => out.push_str("ReadFault")?,
        Err(ReadRefusal::TooLong) => out.push_str("too many left")?,
        Err(ReadRefusal::NoMemory) => return Err(NoMemory),
    }
    Ok(())
}

/// The messages of a stream, at most `most` of them, each with a bar behind it, and then why no more was read: none is left, a
/// refusal, or how many bytes are left.
///
/// # Errors
///
/// `NoMemory`.
pub fn read_stream<S: Source>(
    alloc: Global,
    source: &mut S,
    side: MessageSide,
    way: MessageWay,
    most: u32,
) -> Result<String, NoMemory> {
    let mut held = Held::new(alloc);
    let mut out = String::new(alloc);
    for _ in 0..most {
        match read_once(alloc, source, &mut held, side, way) {
            Ok(Some(message)) => show_message(&message, &mut out)?,
            Ok(None) => {
                out.push_str("none")?;
                return Ok(out);
            }
            Err(HttpRefusal::NoMemory) => return Err(NoMemory),
            Err(refusal) => {
                out.push_str(refusal_word(refusal))?;
                return Ok(out);
            }
        }
        out.push_str(" | ")?;
    }
    show_left(alloc, source, &held, &mut out)?;
    Ok(out)
}
