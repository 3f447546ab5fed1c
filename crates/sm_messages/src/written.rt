// The heads that are written, whatever the protocol.
ghost use Rattle.std.specs.Prelude.{◌≡◌, ◌++◌, ◌∷◌, [], IfOk, codes};
ghost use Rattle.sm_messages.specs.WrittenHeads.{field_of, fault_status, length_field, length_fields, type_fields, with_fields};
ghost use Rattle.sm_http.specs.declared.message.Start.TheVariants.{Request, Response};

use itoa::Buffer;
use sm_http::{Field, FieldList, Head, Message, Start};
use sm_tree::{Bytes, NoMemory, Text};
use std::alloc::Global;

/// A field with this name and this value.
///
/// # Errors
///
/// `NoMemory`.
pub fn written_field(alloc: Global, name: &str, value: &[u8]) -> Result<Field, NoMemory>
    ensures { IfOk result (λ field. field ≡ field_of name.now value.now) }
{
    let name = Text::copy(alloc, name)?;
    let value = Bytes::new(value.to_vec(alloc)?);
    Ok(Field { name, value })
}

/// The fields with which a request to a host begins: its type is told where its body isn't empty.
///
/// # Errors
///
/// `NoMemory`.
pub fn request_fields(
    alloc: Global,
    host: &str,
    content_type: &str,
    empty: bool,
) -> Result<Vec<Field>, NoMemory>
    ensures { IfOk result (λ fields.
        fields.items ≡ field_of (codes "host") host.now ∷ type_fields empty content_type.now) }
{
    let mut fields = Vec::new(alloc);
    fields.push(written_field(alloc, "host", host.as_bytes())?)?;
    if !empty {
        fields.push(written_field(alloc, "content-type", content_type.as_bytes())?)?;
    }
    Ok(fields)
}

/// The fields with which a response begins.
///
/// # Errors
///
/// `NoMemory`.
pub fn response_fields(
    alloc: Global,
    content_type: &str,
    empty: bool,
) -> Result<Vec<Field>, NoMemory>
    ensures { IfOk result (λ fields. fields.items ≡ type_fields empty content_type.now) }
{
    let mut fields = Vec::new(alloc);
    if !empty {
        fields.push(written_field(alloc, "content-type", content_type.as_bytes())?)?;
    }
    Ok(fields)
}

// The field that tells the length of a body.
fn length_field(alloc: Global, body: &[u8]) -> Result<Field, NoMemory>
    ensures { IfOk result (λ field. field ≡ length_field body.now) }
{
    let mut digits = Buffer::new();
    written_field(
        alloc,
        "content-length",
        digits.format(body.len()).as_bytes(),
    )
}

/// A request with these fields and this body, whose length stands behind them.
///
/// # Errors
///
/// `NoMemory`.
pub fn request_with(
    alloc: Global,
    method: &str,
    target: Text,
    fields: Vec<Field>,
    body: Vec<u8>,
) -> Result<Message, NoMemory>
    ensures { IfOk result (λ message.
        message ≡ with_fields (Request method.now target) (fields.items ++ length_field body.items ∷ []) body.items) }
{
    let mut fields = fields;
    fields.push(length_field(alloc, body.as_slice())?)?;
    let method = Text::copy(alloc, method)?;
    Ok(Message {
        head: Head {
            start: Start::Request { method, target },
            fields: FieldList::new(fields),
        },
        body: Bytes::new(body),
    })
}

/// A response with this status, these fields and this body, whose length stands behind them but where the status is 204.
///
/// # Errors
///
/// `NoMemory`.
pub fn response_with(
    alloc: Global,
    status: u16,
    fields: Vec<Field>,
    body: Vec<u8>,
) -> Result<Message, NoMemory>
    ensures { IfOk result (λ message.
        message ≡ with_fields (Response status) (fields.items ++ length_fields status body.items) body.items) }
{
    let mut fields = fields;
    if status != 204 {
        fields.push(length_field(alloc, body.as_slice())?)?;
    }
    Ok(Message {
        head: Head {
            start: Start::Response { status },
            fields: FieldList::new(fields),
        },
        body: Bytes::new(body),
    })
}

/// The status of an error by which side is at fault. No memory.
pub fn fault_status(client: bool) -> u16
    ensures { result ≡ fault_status client }
{
    if client { 400 } else { 500 }
}
