// Events as words: a sink that shows each one.
use crate::shown::show_string;
use rows::show_bytes;
use sm_tree::{Event, EventSink, NoMemory};
use std::alloc::Global;

/// The words of the events that came, with blanks between.
#[derive(Drop)]
pub struct EventWords {
    /// The words.
    pub text: String,
}

impl EventWords {
    /// No event so far. No memory.
    pub fn new(alloc: Global) -> Self {
        EventWords {
            text: String::new(alloc),
        }
    }
}

// An opener: its bracket and its number, or none.
fn show_opener(bracket: char, count: Option<u64>, out: &mut String) -> Result<(), NoMemory> {
    out.push(bracket)?;
    match count {
        Some(count) => Ok(write!(out, "{count}")?),
        None => Ok(out.push('_')?),
    }
}

// Appends the word of an event.
fn show_event(event: &Event, out: &mut String) -> Result<(), NoMemory> {
    match event {
        Event::Null => Ok(out.push_str("null")?),
        Event::Bool(truth) => Ok(write!(out, "{truth}")?),
        Event::Int(number) => Ok(write!(out, "{number}")?),
        Event::Number(number) => Ok(out.push_str(number.as_str())?),
        Event::Text(text) => show_string(text.as_str(), out),
        Event::Bytes(bytes) => show_bytes(bytes.as_slice(), out),
        Event::Tag(number) => Ok(write!(out, "tag {number}")?),
        Event::Opaque(byte) => Ok(write!(out, "opaque {byte}")?),
        Event::StartList(count) => show_opener('[', *count, out),
        Event::EndList => Ok(out.push(']')?),
        Event::StartObject(count) => show_opener('{', *count, out),
        Event::Key(name) => {
            out.push_str(name.as_str())?;
            Ok(out.push(':')?)
        }
        Event::EndObject => Ok(out.push('}')?),
    }
}

/// It takes every event, and stands for any.
impl EventSink for EventWords {
    ghost stands_for = { λ w es. Unit {0} };

    ghost takes = { λ w e. Unit {0} };

    ghost alike = { λ v w. Unit {0} };

    fn event(&mut self, event: Event) -> Result<(), NoMemory> {
        if !self.text.is_empty() {
            self.text.push(' ')?;
        }
        show_event(&event, &mut self.text)
    }

    ghost alike_itself = { λ a. tt };

    ghost alike_then = { λ a b c ab bc. tt };
}
