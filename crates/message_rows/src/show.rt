// Messages and bytes in the notation of the rows.
use sm_http::{Field, HttpRefusal, Message, Start};
use sm_tree::NoMemory;

/// The longest run of one byte that is shown byte by byte.
const RUN: u32 = 16;

fn show_byte(byte: u8, out: &mut String) -> Result<(), NoMemory> {
    match byte {
        b'\r' => out.push_str("\\r")?,
        b'\n' => out.push_str("\\n")?,
        b'\t' => out.push_str("\\t")?,
        b'\\' => out.push_str("\\x5c")?,
        b' '..=b'~' => out.push(byte as char)?,
        _ => write!(out, "\\x{byte:02x}")?,
    }
    Ok(())
}

// Appends a byte that stands so many times.
fn show_run(byte: u8, count: u32, out: &mut String) -> Result<(), NoMemory> {
    if count > RUN {
        out.push_str("\\(")?;
        show_byte(byte, out)?;
        write!(out, "*{count})")?;
        return Ok(());
    }
    for _ in 0..count {
        show_byte(byte, out)?;
    }
    Ok(())
}

/// Appends bytes; a run of more than 16 of one byte as a repetition.
pub fn show_bytes(bytes: &[u8], out: &mut String) -> Result<(), NoMemory> {
    let mut run: Option<(u8, u32)> = None;
    for byte in bytes {
        run = match run {
            Some((last, count)) if last == *byte => Some((last, count.saturating_add(1))),
            Some((last, count)) => {
                show_run(last, count, out)?;
                Some((*byte, 1))
            }
            None => Some((*byte, 1)),
        };
    }
    match run {
        Some((last, count)) => show_run(last, count, out),
        None => Ok(()),
    }
}

// Appends a field that stands so many times.
fn show_field(field: &Field, count: u32, out: &mut String) -> Result<(), NoMemory> {
    out.push_str(" {")?;
    show_bytes(field.name.as_str().as_bytes(), out)?;
    out.push_str(": ")?;
    show_bytes(field.value.as_slice(), out)?;
    out.push('}')?;
    if count > 1 {
        write!(out, "*{count}")?;
    }
    Ok(())
}

fn show_fields(fields: &[Field], out: &mut String) -> Result<(), NoMemory> {
    let mut run: Option<(&Field, u32)> = None;
    for field in fields {
        run = match run {
            Some((last, count)) if last == field => Some((last, count.saturating_add(1))),
            Some((last, count)) => {
                show_field(last, count, out)?;
                Some((field, 1))
            }
            None => Some((field, 1)),
        };
    }
    match run {
        Some((last, count)) => show_field(last, count, out),
        None => Ok(()),
    }
}

/// Appends a message: its method and target or its status, its fields, and its body with its length where it isn't empty.
pub fn show_message(message: &Message, out: &mut String) -> Result<(), NoMemory> {
    match &message.head.start {
        Start::Request { method, target } => {
            show_bytes(method.as_str().as_bytes(), out)?;
            out.push(' ')?;
            show_bytes(target.as_str().as_bytes(), out)?;
        }
        Start::Response { status } => write!(out, "{status}")?,
    }
    show_fields(message.head.fields.as_slice(), out)?;
    let body = message.body.as_slice();
    if !body.is_empty() {
        write!(out, " body {} ", body.len())?;
        show_bytes(body, out)?;
    }
    Ok(())
}

/// The word of a refusal.
pub fn refusal_word(refusal: HttpRefusal) -> &'static str {
    match refusal {
        HttpRefusal::ReadFault => "ReadFault",
        HttpRefusal::Ended => "Ended",
        HttpRefusal::Head => "Head",
        HttpRefusal::HeadTooLarge => "HeadTooLarge",
        HttpRefusal::Coding => "Coding",
        HttpRefusal::Length => "Length",
        HttpRefusal::TooLong => "TooLong",
        HttpRefusal::Chunk => "Chunk",
        HttpRefusal::NoMemory => "NoMemory",
    }
}
