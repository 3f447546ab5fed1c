// The parts of a message that stand in its head.
ghost use Rattle.std.specs.Prelude.{◌≡◌, ◌<◌, IfOk, [], length};
ghost use Rattle.std.specs.Option.{option_map};
ghost use Rattle.sm_bind.specs.service.ServiceView.{http_data, service_data};
ghost use Rattle.sm_http.specs.declared.message.Start.TheVariants.{Response};
ghost use Rattle.sm_messages.specs.Goals.{goal_of, the_input};
ghost use Rattle.sm_messages.specs.WrittenHeads.{with_fields};
ghost use Rattle.sm_bind.specs.BindingsView.{parts_data};
ghost use Rattle.sm_rest_heads.specs.RestParts.{head_parts, labels_by, pairs_by, request_parts, response_parts, status_in, target_in};

use sm_bind::Parts;
use sm_bind::sm_service::{HttpRule, Service};
use sm_http::{Field, Head, Message, Start};
use sm_messages::{message_begun, operation_at};
use sm_routes::{labels, pairs_left};
use sm_tree::{Bytes, NoMemory, Text};
use std::alloc::Global;

/// Copies of fields.
///
/// # Errors
///
/// `NoMemory`.
pub fn copied_fields(alloc: Global, fields: &[Field]) -> Result<Vec<Field>, NoMemory>
    ensures { IfOk result (λ copies. copies.items ≡ fields.now) }
{
    let mut copies = Vec::new(alloc);
    for field in fields {
        copies.push(field.copy(alloc)?)?;
    }
    Ok(copies)
}

// The target of a request: a response has none.
fn target_in(start: &Start) -> &[u8]
    ensures { result.now ≡ target_in start.now }
{
    match start {
        Start::Request { target, .. } => target.as_str().as_bytes(),
        Start::Response { .. } => b"",
    }
}

// The status of a response: a request has none.
fn status_in(start: &Start) -> u16
    ensures { result ≡ status_in start.now }
{
    match start {
        Start::Request { .. } => 0,
        Start::Response { status } => *status,
    }
}

fn labels_by(
    alloc: Global,
    rule: &Option<HttpRule>,
    target: &[u8],
) -> Result<Vec<(Text, Bytes)>, NoMemory>
    ensures { IfOk result (λ all. all.items ≡ labels_by (option_map http_data rule.now) target.now) }
{
    match rule {
        Some(rule) => labels(alloc, &rule.uri, target),
        None => Ok(Vec::new(alloc)),
    }
}

fn pairs_by(
    alloc: Global,
    rule: &Option<HttpRule>,
    target: &[u8],
) -> Result<Vec<(Bytes, Bytes)>, NoMemory>
    ensures { IfOk result (λ all. all.items ≡ pairs_by (option_map http_data rule.now) target.now) }
{
    match rule {
        Some(rule) => pairs_left(alloc, &rule.uri, target),
        None => Ok(Vec::new(alloc)),
    }
}

// Those of a request for an operation of which `http` says this.
fn parts_by(alloc: Global, rule: &Option<HttpRule>, head: &Head) -> Result<Parts, NoMemory>
    ensures { IfOk result (λ parts. parts_data parts ≡ request_parts (option_map http_data rule.now) head.now) }
{
    let target = target_in(&head.start);
    let labels = labels_by(alloc, rule, target)?;
    let query = pairs_by(alloc, rule, target)?;
    let fields = copied_fields(alloc, head.fields.as_slice())?;
    Ok(Parts {
        labels,
        query,
        fields,
        status: 200,
    })
}

/// The parts of a request for an operation that stand in its head. Linear in the target for each literal of the pattern.
///
/// # Errors
///
/// `NoMemory`.
pub fn request_parts(
    alloc: Global,
    service: &Service,
    operation: u32,
    head: &Head,
) -> Result<Parts, NoMemory>
    requires { operation < length (service_data service.now).operations }
    ensures { IfOk result (λ parts. parts_data parts ≡ head_parts (service_data service.now) (goal_of operation the_input) head.now) }
{
    parts_by(alloc, &operation_at(service, operation).http, head)
}

/// The parts of a response that stand in its head.
///
/// # Errors
///
/// `NoMemory`.
pub fn response_parts(alloc: Global, head: &Head) -> Result<Parts, NoMemory>
    ensures { IfOk result (λ parts. parts_data parts ≡ response_parts head.now) }
{
    let fields = copied_fields(alloc, head.fields.as_slice())?;
    Ok(Parts {
        labels: Vec::new(alloc),
        query: Vec::new(alloc),
        fields,
        status: status_in(&head.start),
    })
}

/// The message of a request that is held, to which no byte of its body has come: all of its head.
///
/// # Errors
///
/// `NoMemory`.
pub fn kept_request(alloc: Global, head: &Head) -> Result<Message, NoMemory>
    ensures { IfOk result (λ message. message ≡ with_fields head.now.start head.now.fields []) }
{
    let fields = copied_fields(alloc, head.fields.as_slice())?;
    message_begun(alloc, &head.start, fields)
}

/// The same of a response: it has the start of one.
///
/// # Errors
///
/// `NoMemory`.
pub fn kept_response(alloc: Global, head: &Head) -> Result<Message, NoMemory>
    ensures { IfOk result (λ message. message ≡ with_fields (Response (status_in head.now.start)) head.now.fields []) }
{
    let fields = copied_fields(alloc, head.fields.as_slice())?;
    let start = Start::Response {
        status: status_in(&head.start),
    };
    message_begun(alloc, &start, fields)
}
