// Whether a text is a pattern of URIs: its parts, or how many of its bytes begin one.
use sm_tree::{NoMemory, Text};
use sm_uri::{Segment, UriPattern, UriRefusal};
use std::alloc::Global;
use std::fmt::Write;

/// Appends what the reader of patterns says of a text.
pub fn show_uri(alloc: Global, text: &str, out: &mut String) -> Result<(), NoMemory> {
    out.push_str(" =>")?;
    match UriPattern::parse(alloc, text) {
        Ok(pattern) => show_pattern(&pattern, out)?,
        Err(UriRefusal::Bad(at)) => write!(out, " Bad {at}")?,
        Err(UriRefusal::NoMemory) => out.push_str(" NoMemory")?,
    }
    Ok(())
}

fn show_pattern(pattern: &UriPattern, out: &mut String) -> Result<(), NoMemory> {
    if pattern.segments.is_empty() {
        out.push_str(" the root")?;
    }
    for segment in &pattern.segments {
        match segment {
            Segment::Literal(text) => show_part("literal", text, out)?,
            Segment::Label(name) => show_part("label", name, out)?,
            Segment::Greedy(name) => show_part("greedy", name, out)?,
        }
    }
    show_literals(pattern.literals.as_slice(), out)
}

fn show_literals(literals: &[(Text, Option<Text>)], out: &mut String) -> Result<(), NoMemory> {
    for (key, value) in literals {
        show_part("key", key, out)?;
        if let Some(value) = value {
            show_part("value", value, out)?;
        }
    }
    Ok(())
}

fn show_part(what: &str, text: &Text, out: &mut String) -> Result<(), NoMemory> {
    let text = text.as_str();
    write!(out, " {what} \"{text}\"")?;
    Ok(())
}
