// What a session put, as text: CR LF is shown as `|`.
use sm_http::HttpRefusal;
use sm_session::SessionEnd;
use sm_tree::NoMemory;

/// Appends bytes.
///
/// # Errors
///
/// `NoMemory`.
pub fn show_bytes(bytes: &[u8], out: &mut String) -> Result<(), NoMemory> {
    let text = std::str::from_utf8(bytes).unwrap_or("no text");
    let mut is_first = true;
    for part in text.split("\r\n") {
        if !is_first {
            out.push('|')?;
        }
        is_first = false;
        out.push_str(part)?;
    }
    Ok(())
}

fn framing_word(why: HttpRefusal) -> &'static str {
    match why {
        HttpRefusal::Head => "Head",
        HttpRefusal::HeadTooLarge => "HeadTooLarge",
        HttpRefusal::Coding => "Coding",
        HttpRefusal::Length => "Length",
        HttpRefusal::TooLong => "TooLong",
        HttpRefusal::Chunk => "Chunk",
        _ => "another",
    }
}

/// Appends an end.
///
/// # Errors
///
/// `NoMemory`.
pub fn show_end(end: SessionEnd, out: &mut String) -> Result<(), NoMemory> {
    match end {
        SessionEnd::Closed => out.push_str("Closed")?,
        SessionEnd::Quota => out.push_str("Quota")?,
        SessionEnd::FrontEnded => out.push_str("FrontEnded")?,
        SessionEnd::BackEnded => out.push_str("BackEnded")?,
        SessionEnd::FrontFraming(why) => {
            out.push_str("FrontFraming ")?;
            out.push_str(framing_word(why))?;
        }
        SessionEnd::BackFraming(why) => {
            out.push_str("BackFraming ")?;
            out.push_str(framing_word(why))?;
        }
        SessionEnd::FrontRead => out.push_str("FrontRead")?,
        SessionEnd::FrontWrite => out.push_str("FrontWrite")?,
        SessionEnd::BackRead => out.push_str("BackRead")?,
        SessionEnd::BackWrite => out.push_str("BackWrite")?,
        SessionEnd::NoMemory => return Err(NoMemory),
    }
    Ok(())
}
