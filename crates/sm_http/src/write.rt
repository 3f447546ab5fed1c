// Messages written: the first line, the fields in their order, an empty line, and the body.
ghost use Rattle.std.specs.Prelude.{◌≡◌, ◌+◌, ◌≤◌, ◌++◌, length, take, decimal, vec_len, vec_capacity, OnOk, OnErr, IsOk};
ghost use Rattle.sm_bytes.specs.Lengths.{length_word};
ghost use Rattle.sm_http.specs.Written.{phrase, written};
ghost use Rattle.sm_http.specs.steps.Printing.{field_text, fields_text, start_text, message_text};

use crate::message::{Field, Message, Start};
use http::StatusCode;
use itoa::Buffer;
use sm_bytes::{make_room, place_slice};
use sm_tree::NoMemory;
use std::alloc::Global;

/// The phrase of a status, or the empty text where it has none. No memory.
pub fn phrase_of(status: u16) -> &'static str
    ensures { result.now ≡ phrase status }
{
    match StatusCode::from_u16(status) {
        Ok(code) => code.canonical_reason().unwrap_or(""),
        Err(_) => "",
    }
}

fn start_len(start: &Start) -> u64
    ensures { result ≡ length_word (length (start_text start.now)) }
{
    match start {
        Start::Request { method, target } => (method.as_str().len() as u64)
            .saturating_add(target.as_str().len() as u64)
            .saturating_add(12),
        Start::Response { status } => {
            let mut digits = Buffer::new();
            let len = digits.format(*status).len() as u64;
            len.saturating_add(phrase_of(*status).len() as u64)
                .saturating_add(12)
        }
    }
}

fn field_len(field: &Field) -> u64
    ensures { result ≡ length_word (length (field_text field.now)) }
{
    (field.name.as_str().len() as u64)
        .saturating_add(field.value.as_slice().len() as u64)
        .saturating_add(4)
}

fn fields_len(fields: &[Field]) -> u64
    ensures { result ≡ length_word (length (fields_text fields.now)) }
{
    let mut len: u64 = 0;
    for field in fields {
        len = len.saturating_add(field_len(field));
    }
    len
}

// The length of a message's text, by its parts.
fn text_len(message: &Message) -> u64
    ensures { result ≡ length_word (length (message_text message.now)) }
{
    start_len(&message.head.start)
        .saturating_add(fields_len(message.head.fields.as_slice()))
        .saturating_add(message.body.as_slice().len() as u64)
        .saturating_add(2)
}

/// How many bytes a written message has, or 2^64 - 1 where they are more. No memory.
pub fn message_len(message: &Message) -> u64
    ensures { result ≡ length_word (length (written message.now)) }
{
    text_len(message)
}

fn place_status(buf: &mut [u8], at: usize, status: u16) -> usize
    requires room { at + length (decimal status) ≤ length buf.old }
    ensures bytes { take result buf.new ≡ take at buf.old ++ decimal status }
    ensures next { result ≡ at + length (decimal status) }
{
    let mut digits = Buffer::new();
    place_slice(buf, at, digits.format(status).as_bytes())
}

fn place_start(buf: &mut [u8], at: usize, start: &Start) -> usize
    requires room { at + length (start_text start.now) ≤ length buf.old }
    ensures bytes { take result buf.new ≡ take at buf.old ++ start_text start.now }
    ensures next { result ≡ at + length (start_text start.now) }
{
    match start {
        Start::Request { method, target } => {
            let at = place_slice(buf, at, method.as_str().as_bytes());
            let at = place_slice(buf, at, b" ");
            let at = place_slice(buf, at, target.as_str().as_bytes());
            place_slice(buf, at, b" HTTP/1.1\r\n")
        }
        Start::Response { status } => {
            let at = place_slice(buf, at, b"HTTP/1.1 ");
            let at = place_status(buf, at, *status);
            let at = place_slice(buf, at, b" ");
            let at = place_slice(buf, at, phrase_of(*status).as_bytes());
            place_slice(buf, at, b"\r\n")
        }
    }
}

fn place_field(buf: &mut [u8], at: usize, field: &Field) -> usize
    requires room { at + length (field_text field.now) ≤ length buf.old }
    ensures bytes { take result buf.new ≡ take at buf.old ++ field_text field.now }
    ensures next { result ≡ at + length (field_text field.now) }
{
    let at = place_slice(buf, at, field.name.as_str().as_bytes());
    let at = place_slice(buf, at, b": ");
    let at = place_slice(buf, at, field.value.as_slice());
    place_slice(buf, at, b"\r\n")
}

fn place_fields(buf: &mut [u8], at: usize, fields: &[Field]) -> usize
    requires room { at + length (fields_text fields.now) ≤ length buf.old }
    ensures bytes { take result buf.new ≡ take at buf.old ++ fields_text fields.now }
    ensures next { result ≡ at + length (fields_text fields.now) }
{
    let mut at = at;
    for field in fields {
        at = place_field(buf, at, field);
    }
    at
}

fn place_message(buf: &mut [u8], at: usize, message: &Message) -> usize
    requires room { at + length (message_text message.now) ≤ length buf.old }
    ensures bytes { take result buf.new ≡ take at buf.old ++ message_text message.now }
    ensures next { result ≡ at + length (message_text message.now) }
{
    let at = place_start(buf, at, &message.head.start);
    let at = place_fields(buf, at, message.head.fields.as_slice());
    let at = place_slice(buf, at, b"\r\n");
    place_slice(buf, at, message.body.as_slice())
}

// Appends a message's text, by its parts.
fn append_text(alloc: Global, message: &Message, out: &mut Vec<u8>) -> Result<(), NoMemory>
    ensures written { OnOk result (out.new.items ≡ out.old.items ++ message_text message.now) }
    ensures unchanged { OnErr result (out.new.items ≡ out.old.items) }
    ensures succeeds { vec_len out.old + length (message_text message.now) ≤ vec_capacity out.old → IsOk result }
{
    let at = make_room(alloc, out, text_len(message) as usize)?;
    place_message(out.as_mut_slice(), at, message);
    Ok(())
}

/// Appends a message to `out`: its first line, its fields in their order, an empty line and its body. Lines end in CR LF.
/// `NoMemory` where the allocator refuses the room, and then `out` is as before. Where `out` has room for `message_len(message)`
/// bytes more it takes no memory and succeeds.
pub fn write_message(alloc: Global, message: &Message, out: &mut Vec<u8>) -> Result<(), NoMemory>
    ensures written { OnOk result (out.new.items ≡ out.old.items ++ written message.now) }
    ensures unchanged { OnErr result (out.new.items ≡ out.old.items) }
    ensures succeeds { vec_len out.old + length (written message.now) ≤ vec_capacity out.old → IsOk result }
{
    append_text(alloc, message, out)
}
