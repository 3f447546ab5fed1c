// A message written, and read again.
use crate::show::show_bytes;
use sm_http::{Held, HttpRefusal, Message, MessageSide, message_len, read_message, write_message};
use sm_io::CalmSource;
use sm_tree::NoMemory;
use std::alloc::Global;

/// What stands before all that is written.
const BEFORE: &[u8] = b"x=";

/// The message that bytes begin with.
///
/// # Errors
///
/// `NoMemory`.
pub fn message_of(
    alloc: Global,
    side: MessageSide,
    bytes: &[u8],
) -> Result<Result<Option<Message>, HttpRefusal>, NoMemory> {
    let mut source = CalmSource::new(bytes.to_vec(alloc)?, Vec::new(alloc));
    let mut held = Held::new(alloc);
    match read_message(alloc, &mut source, &mut held, side) {
        Err(HttpRefusal::NoMemory) => Err(NoMemory),
        said => Ok(said),
    }
}

/// Appends the text of a message, written behind bytes that are there into room that is just enough; and where that isn't so: that
/// its length isn't what `message_len` says, that other room was taken, or that it isn't read again as the message.
///
/// # Errors
///
/// `NoMemory`.
pub fn show_text(
    alloc: Global,
    side: MessageSide,
    message: &Message,
    out: &mut String,
) -> Result<(), NoMemory> {
    let len = message_len(message) as usize;
    let mut text = Vec::with_capacity(alloc, BEFORE.len().saturating_add(len))?;
    text.extend_from_slice(BEFORE)?;
    let room = text.capacity();
    write_message(alloc, message, &mut text)?;
    let written = text.strip_prefix(BEFORE).unwrap_or(b"other bytes before");
    show_bytes(written, out)?;
    if written.len() != len {
        out.push_str(" of another length")?;
    }
    if text.capacity() != room {
        out.push_str(" in other room")?;
    }
    match message_of(alloc, side, written)? {
        Ok(Some(again)) if again == *message => {}
        _ => out.push_str(" not read again as itself")?,
    }
    Ok(())
}
