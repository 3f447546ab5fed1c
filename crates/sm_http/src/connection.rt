// What a message says of its connection (RFC 9112, section 9.6), and what answers `HEAD` (RFC 9110, section 9.3.2).
ghost use Rattle.std.specs.Prelude.{◌≡◌, ◌≤◌, length, IfOk};
ghost use Rattle.sm_http.specs.steps.Placing.{close_place};
ghost use Rattle.sm_http.specs.Connections.{says_close, close_field, is_length_field, with_close, asks_head, for_head};

use crate::fields::folds_to;
use crate::message::{Field, FieldList, Head, Message, Start};
use sm_tree::{Bytes, NoMemory, Text};
use std::alloc::Global;

/// Whether a head says that its connection ends behind the message: the option `close` stands in its `connection` fields. No memory.
pub fn says_close(head: &Head) -> bool
    ensures { result ≡ says_close head.now }
{
    head.fields.has_token("connection", "close")
}

// The field `connection: close`.
fn close_field(alloc: Global) -> Result<Field, NoMemory>
    ensures { IfOk result (λ field. field ≡ close_field) }
{
    let name = Text::copy(alloc, "connection")?;
    let value = Bytes::new(b"close".to_vec(alloc)?);
    Ok(Field { name, value })
}

fn is_length_field(field: &Field) -> bool
    ensures { result ≡ is_length_field field.now }
{
    folds_to(field.name.as_str().as_bytes(), b"content-length")
}

// Where that field is put: before a last length, else behind all fields.
fn close_place(fields: &[Field]) -> usize
    ensures place { result ≡ close_place fields.now }
    ensures within { result ≤ length fields.now }
{
    match fields {
        [] => 0,
        [.., last] => {
            if is_length_field(last) {
                fields.len() - 1
            } else {
                fields.len()
            }
        }
    }
}

/// The message with the field `connection: close`, before a last `content-length`, else behind all fields.
///
/// # Errors
///
/// `NoMemory` where the allocator refuses the field or its room.
#[tactic(auto, using(crate::proofs::ClosePlaced::close_placed))]
pub fn with_close(alloc: Global, message: Message) -> Result<Message, NoMemory>
    ensures { IfOk result (λ closing. closing ≡ with_close message) }
{
    let Message { head, body } = message;
    let Head { start, fields } = head;
    let at = close_place(fields.as_slice());
    let mut fields = fields.into_inner();
    fields.insert(at, close_field(alloc)?)?;
    let fields = FieldList::new(fields);
    Ok(Message {
        head: Head { start, fields },
        body,
    })
}

// Whether a request asks for a head alone.
fn asks_head(start: &Start) -> bool
    ensures { result ≡ asks_head start.now }
{
    match start {
        Start::Request { method, .. } => method.as_str() == "HEAD",
        Start::Response { .. } => false,
    }
}

/// What is sent as the answer to a request with this head: to `HEAD` the answer's head alone, as it is, so with the length of the
/// body that isn't sent. No memory.
pub fn for_head(asked: &Head, answer: Message) -> Message
    ensures { result ≡ for_head asked.now answer }
{
    if !asks_head(&asked.start) {
        return answer;
    }
    let Message { head, body } = answer;
    let mut bytes = body.into_inner();
    bytes.clear();
    Message {
        head,
        body: Bytes::new(bytes),
    }
}
