// Messages as they are written: by their parts, and appended to bytes without a message between.
ghost use Rattle.std.specs.Prelude.{◌≡◌, ◌++◌, ◌∷◌, [], IfOk, OnErr, OnOk};
ghost use Rattle.sm_http.specs.Written.{written, written_head};
ghost use Rattle.sm_http.specs.declared.message.Start.TheVariants.{Request, Response};
ghost use Rattle.sm_http.specs.steps.Printing.{field_text, fields_text, start_text};
ghost use Rattle.sm_messages.specs.WrittenHeads.{
  field_of,
  fields_given,
  length_field,
  length_fields,
  type_fields,
  written_request,
  written_response,
};

use crate::heads::is_empty;
use crate::written::{request_fields, request_with, response_fields, response_with, written_field};
use itoa::Buffer;
use sm_bytes::{make_room, place_slice};
use sm_http::{Field, Message, phrase_of};
use sm_tree::{NoMemory, Text};
use std::alloc::Global;

// Room for most heads.
const HEAD_ROOM: usize = 256;

// These fields behind others.
fn with_given(
    alloc: Global,
    fields: Vec<Field>,
    more: &[(&str, &[u8])],
) -> Result<Vec<Field>, NoMemory>
    ensures { IfOk result (λ all. all.items ≡ fields.items ++ fields_given more.now) }
{
    let mut fields = fields;
    for field in more {
        fields.push(written_field(alloc, field.0, field.1)?)?;
    }
    Ok(fields)
}

/// The request with this method and target to a host, with more fields of its protocol: names with their values.
///
/// # Errors
///
/// `NoMemory`.
pub fn request_to(
    alloc: Global,
    method: &str,
    target: &str,
    host: &str,
    content_type: &str,
    more: &[(&str, &[u8])],
    body: Vec<u8>,
) -> Result<Message, NoMemory>
    ensures { IfOk result (λ message.
        message ≡ written_request method.now target.now host.now content_type.now (fields_given more.now) body.items) }
{
    let first = request_fields(alloc, host, content_type, is_empty(body.as_slice()))?;
    let fields = with_given(alloc, first, more)?;
    let target = Text::copy(alloc, target)?;
    request_with(alloc, method, target, fields, body)
}

/// The response with this status, with more fields of its protocol: names with their values.
///
/// # Errors
///
/// `NoMemory`.
pub fn response_of(
    alloc: Global,
    status: u16,
    content_type: &str,
    more: &[(&str, &[u8])],
    body: Vec<u8>,
) -> Result<Message, NoMemory>
    ensures { IfOk result (λ message. message ≡ written_response status content_type.now (fields_given more.now) body.items) }
{
    let first = response_fields(alloc, content_type, is_empty(body.as_slice()))?;
    let fields = with_given(alloc, first, more)?;
    response_with(alloc, status, fields, body)
}

// The line of a field.
fn put_field(name: &str, value: &[u8], head: &mut Vec<u8>) -> Result<(), NoMemory>
    ensures { OnOk result (head.new.items ≡ head.old.items ++ field_text (field_of name.now value.now)) }
{
    head.extend_from_slice(name.as_bytes())?;
    head.extend_from_slice(b": ")?;
    head.extend_from_slice(value)?;
    head.extend_from_slice(b"\r\n")?;
    Ok(())
}

fn put_given(more: &[(&str, &[u8])], head: &mut Vec<u8>) -> Result<(), NoMemory>
    ensures { OnOk result (head.new.items ≡ head.old.items ++ fields_text (fields_given more.now)) }
{
    for field in more {
        put_field(field.0, field.1, head)?;
    }
    Ok(())
}

// The type of a body that isn't empty.
#[tactic(auto, using(crate::proofs::WrittenTexts::one_line))]
fn put_type(content_type: &str, empty: bool, head: &mut Vec<u8>) -> Result<(), NoMemory>
    ensures { OnOk result (head.new.items ≡ head.old.items ++ fields_text (type_fields empty content_type.now)) }
{
    match empty {
        true => Ok(()),
        false => put_field("content-type", content_type.as_bytes(), head),
    }
}

// The length of a body.
fn put_length(body: &[u8], head: &mut Vec<u8>) -> Result<(), NoMemory>
    ensures { OnOk result (head.new.items ≡ head.old.items ++ field_text (length_field body.now)) }
{
    let mut digits = Buffer::new();
    let text = digits.format(body.len());
    put_field("content-length", text.as_bytes(), head)
}

// The length of a body, but where the status is 204.
fn put_lengths(status: u16, body: &[u8], head: &mut Vec<u8>) -> Result<(), NoMemory>
    ensures { OnOk result (head.new.items ≡ head.old.items ++ fields_text (length_fields status body.now)) }
{
    if status == 204 {
        return Ok(());
    }
    put_length(body, head)
}

// The first line of a request.
fn put_request_start(method: &str, target: &str, head: &mut Vec<u8>) -> Result<(), NoMemory>
    ensures { OnOk result (head.new.items ≡ head.old.items ++ start_text (Request method.now target.now)) }
{
    head.extend_from_slice(method.as_bytes())?;
    head.extend_from_slice(b" ")?;
    head.extend_from_slice(target.as_bytes())?;
    head.extend_from_slice(b" HTTP/1.1\r\n")?;
    Ok(())
}

// The first line of a response.
fn put_response_start(status: u16, head: &mut Vec<u8>) -> Result<(), NoMemory>
    ensures { OnOk result (head.new.items ≡ head.old.items ++ start_text (Response status)) }
{
    let mut digits = Buffer::new();
    head.extend_from_slice(b"HTTP/1.1 ")?;
    head.extend_from_slice(digits.format(status).as_bytes())?;
    head.extend_from_slice(b" ")?;
    head.extend_from_slice(phrase_of(status).as_bytes())?;
    head.extend_from_slice(b"\r\n")?;
    Ok(())
}

// The head of such a request, written.
fn request_head(
    alloc: Global,
    method: &str,
    target: &str,
    host: &str,
    content_type: &str,
    more: &[(&str, &[u8])],
    body: &[u8],
) -> Result<Vec<u8>, NoMemory>
    ensures { IfOk result (λ head. head.items ≡ written_head
        (written_request method.now target.now host.now content_type.now (fields_given more.now) body.now).head) }
{
    let mut head = Vec::with_capacity(alloc, HEAD_ROOM)?;
    put_request_start(method, target, &mut head)?;
    put_field("host", host.as_bytes(), &mut head)?;
    put_type(content_type, is_empty(body), &mut head)?;
    put_given(more, &mut head)?;
    put_length(body, &mut head)?;
    head.extend_from_slice(b"\r\n")?;
    Ok(head)
}

// The head of such a response, written.
fn response_head(
    alloc: Global,
    status: u16,
    content_type: &str,
    more: &[(&str, &[u8])],
    body: &[u8],
) -> Result<Vec<u8>, NoMemory>
    ensures { IfOk result (λ head. head.items ≡ written_head
        (written_response status content_type.now (fields_given more.now) body.now).head) }
{
    let mut head = Vec::with_capacity(alloc, HEAD_ROOM)?;
    put_response_start(status, &mut head)?;
    put_type(content_type, is_empty(body), &mut head)?;
    put_given(more, &mut head)?;
    put_lengths(status, body, &mut head)?;
    head.extend_from_slice(b"\r\n")?;
    Ok(head)
}

// Appends a head and a body, or nothing.
fn append_both(alloc: Global, head: &[u8], body: &[u8], out: &mut Vec<u8>) -> Result<(), NoMemory>
    ensures written { OnOk result (out.new.items ≡ out.old.items ++ (head.now ++ body.now)) }
    ensures unchanged { OnErr result (out.new.items ≡ out.old.items) }
{
    let len = head.len().saturating_add(body.len());
    let at = make_room(alloc, out, len)?;
    let at = place_slice(out.as_mut_slice(), at, head);
    place_slice(out.as_mut_slice(), at, body);
    Ok(())
}

/// Appends the text of what `request_to` makes, without a message.
///
/// # Errors
///
/// `NoMemory`, and then `out` is as before.
pub fn append_request_to(
    alloc: Global,
    method: &str,
    target: &str,
    host: &str,
    content_type: &str,
    more: &[(&str, &[u8])],
    body: &[u8],
    out: &mut Vec<u8>,
) -> Result<(), NoMemory>
    ensures written { OnOk result (out.new.items ≡ out.old.items
        ++ written (written_request method.now target.now host.now content_type.now (fields_given more.now) body.now)) }
    ensures unchanged { OnErr result (out.new.items ≡ out.old.items) }
{
    let head = request_head(alloc, method, target, host, content_type, more, body)?;
    append_both(alloc, head.as_slice(), body, out)
}

/// Appends the text of what `response_of` makes, without a message.
///
/// # Errors
///
/// `NoMemory`, and then `out` is as before.
pub fn append_response_of(
    alloc: Global,
    status: u16,
    content_type: &str,
    more: &[(&str, &[u8])],
    body: &[u8],
    out: &mut Vec<u8>,
) -> Result<(), NoMemory>
    ensures written { OnOk result (out.new.items ≡ out.old.items
        ++ written (written_response status content_type.now (fields_given more.now) body.now)) }
    ensures unchanged { OnErr result (out.new.items ≡ out.old.items) }
{
    let head = response_head(alloc, status, content_type, more, body)?;
    append_both(alloc, head.as_slice(), body, out)
}
