// Requests, written.
ghost use Rattle.std.specs.Prelude.{◌≡◌, ◌<◌, ◌++◌, [], IfOk, None, OnErr, OnOk, Some, length, string_bytes};
ghost use Rattle.sm_http.specs.Written.{written};
ghost use Rattle.sm_shapes.specs.Fitting.{Fits, any_text};
ghost use Rattle.sm_shapes.specs.ValueView.{val_of};
ghost use Rattle.sm_rest.specs.service.Servable.{Servable};
ghost use Rattle.sm_rest.specs.service.ServiceView.{http_data, service_data};
ghost use Rattle.sm_rest.specs.messages.Goals.{goal_of, the_input};
ghost use Rattle.sm_rest.specs.messages.TreeBodies.{goal_place};
ghost use Rattle.sm_rest.specs.bind.BindingsView.{parts_data};
ghost use Rattle.sm_rest.specs.bind_write.WrittenParts.{request_target};
ghost use Rattle.sm_rest.specs.RestForm.{rest_form};
ghost use Rattle.sm_rest.specs.RestGoals.{rule_at};
ghost use Rattle.sm_rest_write.specs.steps.Outlines.{outline_request};

use crate::fields::{lent_fields, request_with_bound};
use crate::outline::{Outline, outlined};
use crate::places::input_place;
use sm_http::Message;
use sm_rest::sm_bind::Parts;
use sm_rest::sm_messages::{append_request_to, is_empty, operation_at, request_with};
use sm_rest::sm_service::{HttpRule, Service};
use sm_routes::put_target;
use sm_shapes::values::Value;
use sm_tree::{NoMemory, Text};
use std::alloc::Global;

// Room for most targets.
const TARGET_ROOM: usize = 256;

// The status among the parts of a request: it isn't looked at.
const NO_STATUS: u16 = 200;

// What `http` says of an operation that is served.
fn rule_of(service: &Service, operation: u32) -> &HttpRule
    requires number { operation < length (service_data service.now).operations }
    requires served { rest_form.restriction (service_data service.now) operation ≡ None }
    ensures { rule_at (service_data service.now) (goal_of operation the_input) ≡ Some (http_data result.now) }
{
    match &operation_at(service, operation).http {
        Some(rule) => rule,
        None => unreachable!(),
    }
}

fn target_text(alloc: Global, rule: &HttpRule, parts: &Parts) -> Result<String, NoMemory>
    ensures { IfOk result (λ target.
        string_bytes target ≡ request_target (http_data rule.now).uri (parts_data parts.now)) }
{
    let mut target = String::with_capacity(alloc, TARGET_ROOM)?;
    put_target(
        &mut target,
        &rule.uri,
        parts.labels.as_slice(),
        parts.query.as_slice(),
    )?;
    Ok(target)
}

// The request of which this is the outline.
fn request_of(
    alloc: Global,
    rule: &HttpRule,
    host: &str,
    outline: Outline<'_, '_>,
) -> Result<Message, NoMemory>
    ensures { IfOk result (λ message. message ≡ outline_request (http_data rule.now) host.now outline.entry) }
{
    let target = target_text(alloc, rule, &outline.parts)?;
    let Outline {
        parts,
        body,
        content_type,
    } = outline;
    let Parts { fields, .. } = parts;
    let body = body.into_vec(alloc)?;
    let empty = is_empty(body.as_slice());
    let fields = request_with_bound(alloc, host, content_type, empty, fields)?;
    request_with(alloc, rule.method.as_str(), Text::new(target), fields, body)
}

// Appends its text.
fn put_request(
    alloc: Global,
    rule: &HttpRule,
    host: &str,
    outline: &Outline<'_, '_>,
    out: &mut Vec<u8>,
) -> Result<(), NoMemory>
    ensures written { OnOk result (out.new.items ≡ out.old.items ++ written (outline_request (http_data rule.now) host.now outline.now)) }
    ensures unchanged { OnErr result (out.new.items ≡ out.old.items) }
{
    let target = target_text(alloc, rule, &outline.parts)?;
    let fields = lent_fields(alloc, None, outline.parts.fields.as_slice())?;
    append_request_to(
        alloc,
        rule.method.as_str(),
        target.as_str(),
        host,
        outline.content_type,
        fields.as_slice(),
        outline.body.as_slice(),
        out,
    )
}

/// The one request to a host that is written for an input, all of which is carried, of an operation that is served.
///
/// # Errors
///
/// `NoMemory`.
pub fn write_request(
    alloc: Global,
    service: &Service,
    operation: u32,
    value: &Value,
    host: &str,
) -> Result<Message, NoMemory>
    requires servable { Servable (service_data service.now) }
    requires number { operation < length (service_data service.now).operations }
    requires served { rest_form.restriction (service_data service.now) operation ≡ None }
    requires fits { Fits (service_data service.now).table any_text
        (goal_place (service_data service.now) (goal_of operation the_input)) (val_of value.now) }
    requires carried { rest_form.uncarried (service_data service.now) (goal_of operation the_input) (val_of value.now) ≡ [] }
    ensures { IfOk result (λ message. message ≡
        rest_form.written (service_data service.now) (goal_of operation the_input) host.now (val_of value.now)) }
{
    let place = input_place(service, operation);
    let outline = outlined(alloc, &place, NO_STATUS, value)?;
    request_of(alloc, rule_of(service, operation), host, outline)
}

/// Appends the text of the request that `write_request` makes: `write_message` of sm_http appends the same. No message is made, and the
/// bytes of a raw payload are copied once.
///
/// # Errors
///
/// `NoMemory`, and then `out` is as before.
pub fn append_request(
    alloc: Global,
    service: &Service,
    operation: u32,
    value: &Value,
    host: &str,
    out: &mut Vec<u8>,
) -> Result<(), NoMemory>
    requires servable { Servable (service_data service.now) }
    requires number { operation < length (service_data service.now).operations }
    requires served { rest_form.restriction (service_data service.now) operation ≡ None }
    requires fits { Fits (service_data service.now).table any_text
        (goal_place (service_data service.now) (goal_of operation the_input)) (val_of value.now) }
    requires carried { rest_form.uncarried (service_data service.now) (goal_of operation the_input) (val_of value.now) ≡ [] }
    ensures written { OnOk result (out.new.items ≡ out.old.items ++ written
        (rest_form.written (service_data service.now) (goal_of operation the_input) host.now (val_of value.now))) }
    ensures unchanged { OnErr result (out.new.items ≡ out.old.items) }
{
    let place = input_place(service, operation);
    let outline = outlined(alloc, &place, NO_STATUS, value)?;
    put_request(alloc, rule_of(service, operation), host, &outline, out)
}
