// The sentence on standard error for a status, and for the line that was printed.
use crate::help::usage_of;
use crate::place::{LineColumn, token_at};
use crate::told::{Said, Spot, said_of_body, said_of_file, said_of_words};
use sm_tree::{NoMemory, Text};
use std::alloc::Global;
use std::io::ErrorKind;

/// What is said of words that have no form: the form of the command that they name.
pub fn usage(alloc: Global, words: &[Text]) -> Result<String, NoMemory> {
    let command = match words.first() {
        Some(word) => word.as_str(),
        None => "",
    };
    let form = usage_of(command);
    Ok(format!(in alloc; "usage: {form}")?)
}

/// What is said of a read that failed: of which file, and why.
pub fn read_fault(
    alloc: Global,
    name: Option<&str>,
    why: Option<ErrorKind>,
) -> Result<String, NoMemory> {
    let name = name.unwrap_or("standard input");
    let why = match why {
        Some(kind) => word_of(kind),
        None => "it failed while it was read",
    };
    Ok(format!(in alloc; "read fault: {name}: {why}")?)
}

/// What is said of a write that failed: of which file, if it was one.
pub fn write_fault(alloc: Global, name: Option<&str>) -> Result<String, NoMemory> {
    let name = name.unwrap_or("standard output");
    Ok(format!(in alloc; "write fault: {name}")?)
}

// Why the outside refuses.
fn word_of(kind: ErrorKind) -> &'static str {
    match kind {
        ErrorKind::NotFound => "no such file",
        ErrorKind::PermissionDenied => "it may not be read",
        ErrorKind::IsADirectory => "it is a directory",
        ErrorKind::NotADirectory => "a part of its path is no directory",
        _ => "it can't be read",
    }
}

/// The name of the model file of which a line speaks, and what it says of it.
pub fn file_told<'a>(words: &'a [Text], line: &'a str) -> Option<(&'a str, Said<'a>)> {
    for word in words {
        let name = word.as_str();
        if let Some(said) = said_behind(name, line) {
            return Some((name, said));
        }
    }
    None
}

// What a line says of the file of this name, if it speaks of it.
fn said_behind<'a>(name: &str, line: &'a str) -> Option<Said<'a>> {
    let rest = line.strip_prefix(name)?;
    said_of_file(rest.strip_prefix(' ')?)
}

/// What a line says that speaks of no file.
pub fn line_told(line: &str) -> Option<(&'static str, Said<'_>)> {
    if let Some(said) = said_of_body(line) {
        return Some(("standard input", said));
    }
    match said_of_words(line) {
        Some(said) => Some(("", said)),
        None => None,
    }
}

/// A sentence about what has this name. The text is that in which it looks, where there is one.
pub fn sentence(
    alloc: Global,
    name: &str,
    said: Said<'_>,
    text: Option<&[u8]>,
) -> Result<String, NoMemory> {
    let mut out = head(alloc, name, said, text)?;
    match said.spot {
        Spot::Token(at) => put_token(alloc, at, said.text, text, &mut out)?,
        _ => out.push_str(said.text)?,
    }
    Ok(out)
}

// Appends what stands at a place, and what is said of it. A text that stops there ends too early.
fn put_token(
    alloc: Global,
    at: usize,
    said: &str,
    text: Option<&[u8]>,
    out: &mut String,
) -> Result<(), NoMemory> {
    let Some(text) = text else {
        return Ok(out.push_str(said)?);
    };
    if at >= text.len() {
        return Ok(out.push_str("the text ends too early")?);
    }
    if let Some(token) = token_at(text, at) {
        out.push_str(format!(in alloc; "'{token}' ")?.as_str())?;
    }
    Ok(out.push_str(said)?)
}

// What stands before what is said: the name, the place or the path.
fn head(
    alloc: Global,
    name: &str,
    said: Said<'_>,
    text: Option<&[u8]>,
) -> Result<String, NoMemory> {
    let mut out = String::from_str(alloc, name)?;
    let at = match (said.spot, text) {
        (Spot::Byte(at), _) | (Spot::Token(at), _) => Some(at),
        (Spot::End, Some(text)) => Some(text.len()),
        _ => None,
    };
    if let Some(at) = at {
        match text {
            Some(text) => {
                let place = LineColumn::of(text, at);
                let line = place.line;
                let column = place.column;
                out.push_str(format!(in alloc; ":{line}:{column}")?.as_str())?;
            }
            None => out.push_str(format!(in alloc; ": byte {at}")?.as_str())?,
        }
    }
    if !out.is_empty() {
        out.push_str(": ")?;
    }
    if !said.path.is_empty() {
        out.push_str(said.path)?;
        out.push_str(": ")?;
    }
    Ok(out)
}
