// What a session put, and how it ended, in the notation of the rows.
use crate::pieces::PieceSink;
use crate::play::Played;
use rows::show_bytes;
use sm_http::HttpRefusal;
use sm_session::SessionEnd;
use sm_tree::NoMemory;

/// The most bytes of a piece that are shown; of a longer one their number is.
const MOST_SHOWN: usize = 3_000;

// The text of bytes that are shown as a text: of characters that print, and line feeds.
fn plain_text(bytes: &[u8]) -> Option<&str> {
    let text = std::str::from_utf8(bytes).ok()?;
    for character in text.chars() {
        if character == '|' || character.is_control() && character != '\n' {
            return None;
        }
    }
    Some(text)
}

// Appends bytes that stand between line ends: as a text, or as pairs of digits in `\{..}`.
fn push_part(bytes: &[u8], out: &mut String) -> Result<(), NoMemory> {
    match plain_text(bytes) {
        Some(text) => out.push_str(text)?,
        None => {
            out.push_str("\\{")?;
            show_bytes(bytes, out)?;
            out.push('}')?;
        }
    }
    Ok(())
}

// Appends the lines of a head, with `|` between two.
fn push_head(head: &str, out: &mut String) -> Result<(), NoMemory> {
    let mut is_first = true;
    for line in head.split("\r\n") {
        if !is_first {
            out.push('|')?;
        }
        is_first = false;
        push_part(line.as_bytes(), out)?;
    }
    Ok(())
}

// Where the empty line of a message begins, with the end of the line before it.
fn head_end(message: &[u8]) -> Option<usize> {
    message
        .windows(4)
        .position(|bytes| bytes == b"\r\n\r\n".as_slice())
}

// The head of a message, where it is a text, and its body.
fn cut_message(message: &[u8]) -> Option<(&str, &[u8])> {
    let end = head_end(message)?;
    let head = std::str::from_utf8(message.get(..end)?).ok()?;
    let body = message.get(end.saturating_add(4)..)?;
    Some((head, body))
}

// Appends a message: its head, an empty line, and its body.
fn push_message(message: &[u8], out: &mut String) -> Result<(), NoMemory> {
    let Some((head, body)) = cut_message(message) else {
        return push_part(message, out);
    };
    push_head(head, out)?;
    out.push_str("||")?;
    push_part(body, out)
}

// Appends the pieces that were put, with ` + ` between two.
fn push_pieces(sink: &PieceSink, out: &mut String) -> Result<(), NoMemory> {
    let mut begin = 0;
    for end in sink.ends() {
        if begin > 0 {
            out.push_str(" + ")?;
        }
        match sink.bytes().get(begin..*end) {
            Some(piece) => {
                if piece.len() > MOST_SHOWN {
                    write!(out, "{} bytes", piece.len())?;
                } else {
                    push_message(piece, out)?;
                }
            }
            None => out.push_str("nothing")?,
        }
        begin = *end;
    }
    Ok(())
}

fn framing_word(why: HttpRefusal) -> &'static str {
    match why {
        HttpRefusal::Head => "Head",
        HttpRefusal::HeadTooLarge => "HeadTooLarge",
        HttpRefusal::Coding => "Coding",
        HttpRefusal::Length => "Length",
        HttpRefusal::TooLong => "TooLong",
        HttpRefusal::Chunk => "Chunk",
        _ => "another",
    }
}

// Appends how a session ended.
fn push_end(end: SessionEnd, out: &mut String) -> Result<(), NoMemory> {
    match end {
        SessionEnd::Closed => out.push_str("Closed")?,
        SessionEnd::Quota => out.push_str("Quota")?,
        SessionEnd::FrontEnded => out.push_str("FrontEnded")?,
        SessionEnd::BackEnded => out.push_str("BackEnded")?,
        SessionEnd::FrontFraming(why) => write!(out, "FrontFraming {}", framing_word(why))?,
        SessionEnd::BackFraming(why) => write!(out, "BackFraming {}", framing_word(why))?,
        SessionEnd::FrontRead => out.push_str("FrontRead")?,
        SessionEnd::FrontWrite => out.push_str("FrontWrite")?,
        SessionEnd::BackRead => out.push_str("BackRead")?,
        SessionEnd::BackWrite => out.push_str("BackWrite")?,
        SessionEnd::NoMemory => return Err(NoMemory),
    }
    Ok(())
}

/// Appends what was put to the front and to the back, and the end, with ` <> ` between two.
///
/// # Errors
///
/// `NoMemory`.
pub fn show_played(said: &Played, out: &mut String) -> Result<(), NoMemory> {
    push_pieces(&said.answers, out)?;
    out.push_str(" <> ")?;
    push_pieces(&said.requests, out)?;
    out.push_str(" <> ")?;
    push_end(said.end, out)
}
