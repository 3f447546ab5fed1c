// What a message answers: its fields by their names, whether it ends its connection, and its texts.
use crate::question::MessageAsked;
use crate::show::{refusal_word, show_bytes};
use crate::written::{message_of, show_text};
use sm_http::{
    FieldList, Head, Message, MessageSide, Start, for_head, says_close, with_close, write_message,
};
use sm_tree::{NoMemory, Text};
use std::alloc::Global;

fn show_value(value: Option<&[u8]>, out: &mut String) -> Result<(), NoMemory> {
    match value {
        Some(value) => {
            out.push('[')?;
            show_bytes(value, out)?;
            Ok(out.push(']')?)
        }
        None => Ok(out.push_str("none")?),
    }
}

// Appends how many fields have the name, the value of the first, and that of the only one.
fn show_field(fields: &FieldList, name: &str, out: &mut String) -> Result<(), NoMemory> {
    let count = fields.count(name);
    write!(out, "{count}, first ")?;
    show_value(fields.first(name), out)?;
    out.push_str(", only ")?;
    show_value(fields.only(name), out)
}

fn show_test(test: bool, out: &mut String) -> Result<(), NoMemory> {
    Ok(out.push_str(if test { "yes" } else { "no" })?)
}

// The head of a request of a method, without a field.
fn request_of(alloc: Global, method: &str) -> Result<Head, NoMemory> {
    let start = Start::Request {
        method: Text::copy(alloc, method)?,
        target: Text::copy(alloc, "/")?,
    };
    let fields = FieldList::new(Vec::new(alloc));
    Ok(Head { start, fields })
}

// Appends the text of what is sent as the answer to a request of a method.
fn show_sent(
    alloc: Global,
    method: &str,
    answer: Message,
    out: &mut String,
) -> Result<(), NoMemory> {
    let sent = for_head(&request_of(alloc, method)?, answer);
    let mut text = Vec::new(alloc);
    write_message(alloc, &sent, &mut text)?;
    show_bytes(&text, out)
}

fn show_answer(
    alloc: Global,
    side: MessageSide,
    message: Message,
    asked: MessageAsked<'_>,
    out: &mut String,
) -> Result<(), NoMemory> {
    let fields = &message.head.fields;
    match asked {
        MessageAsked::Written => show_text(alloc, side, &message, out),
        MessageAsked::Field { name } => show_field(fields, name, out),
        MessageAsked::Token { name, token } => show_test(fields.has_token(name, token), out),
        MessageAsked::Closes => show_test(says_close(&message.head), out),
        MessageAsked::Closing => show_text(alloc, side, &with_close(alloc, message)?, out),
        MessageAsked::Answer { method } => show_sent(alloc, method, message, out),
    }
}

/// Appends what the message answers that the bytes begin with; or `none`, or why there is none.
///
/// # Errors
///
/// `NoMemory`.
pub fn show_asked(
    alloc: Global,
    side: MessageSide,
    bytes: &[u8],
    asked: MessageAsked<'_>,
    out: &mut String,
) -> Result<(), NoMemory> {
    match message_of(alloc, side, bytes)? {
        Ok(Some(message)) => show_answer(alloc, side, message, asked, out),
        Ok(None) => Ok(out.push_str("none")?),
        Err(refusal) => Ok(out.push_str(refusal_word(refusal))?),
    }
}
