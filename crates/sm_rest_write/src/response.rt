// Responses, written.
ghost use Rattle.std.specs.Prelude.{◌≡◌, ◌++◌, [], ℕ, IfOk, List, OnErr, OnOk};
ghost use Rattle.std.specs.Option.{option_map};
ghost use Rattle.sm_http.specs.Written.{written};
ghost use Rattle.sm_shapes.specs.Fitting.{Fits, any_text};
ghost use Rattle.sm_rest.specs.service.Servable.{Servable};
ghost use Rattle.sm_rest.specs.service.ServiceView.{service_data};
ghost use Rattle.sm_rest.specs.messages.Answers.{reply_role, reply_val};
ghost use Rattle.sm_rest.specs.messages.Goals.{HasGoal, goal_of};
ghost use Rattle.sm_rest.specs.messages.TreeBodies.{goal_place};
ghost use Rattle.sm_rest.specs.RestForm.{rest_form};
ghost use Rattle.sm_rest.specs.WrittenRest.{told_fields};
ghost use Rattle.sm_rest_write.specs.steps.Outlines.{outline_response};
ghost use Rattle.sm_rest_write.specs.steps.ToldFields.{fields_telling};

use crate::fields::{lent_fields, response_with_bound};
use crate::outline::{Outline, outlined};
use crate::places::{reply_place, value_in};
use crate::statuses::usual_status;
use sm_http::Message;
use sm_rest::sm_bind::Parts;
use sm_rest::sm_messages::{Reply, append_response_of, error_at, is_empty, response_with};
use sm_rest::sm_service::Service;
use sm_tree::NoMemory;
use std::alloc::Global;

// The name of the error that a reply is.
fn told_of<'s>(service: &'s Service, operation: u32, reply: &Reply) -> Option<&'s str>
    requires { HasGoal (service_data service.now) (goal_of operation (reply_role reply.now)) }
    ensures { fields_telling (option_map (λ name. name.now) result)
        ≡ told_fields (service_data service.now) (goal_of operation (reply_role reply.now)) (reply_role reply.now) }
{
    match reply {
        Reply::Output(_) => None,
        Reply::Error(place, _) => Some(error_at(service, operation, *place).name()),
    }
}

// The response of which this is the outline.
fn response_of(
    alloc: Global,
    told: Option<&str>,
    outline: Outline<'_, '_>,
) -> Result<Message, NoMemory>
    ensures { IfOk result (λ message. message ≡ outline_response (option_map (λ name. name.now) told.entry) outline.entry) }
{
    let Outline {
        parts,
        body,
        content_type,
    } = outline;
    let Parts { fields, status, .. } = parts;
    let body = body.into_vec(alloc)?;
    let empty = is_empty(body.as_slice());
    let fields = response_with_bound(alloc, content_type, empty, told, fields)?;
    response_with(alloc, status, fields, body)
}

// Appends its text.
fn put_response(
    alloc: Global,
    told: Option<&str>,
    outline: &Outline<'_, '_>,
    out: &mut Vec<u8>,
) -> Result<(), NoMemory>
    ensures written { OnOk result (out.new.items
        ≡ out.old.items ++ written (outline_response (option_map (λ name. name.now) told.entry) outline.now)) }
    ensures unchanged { OnErr result (out.new.items ≡ out.old.items) }
{
    let fields = lent_fields(alloc, told, outline.parts.fields.as_slice())?;
    append_response_of(
        alloc,
        outline.parts.status,
        outline.content_type,
        fields.as_slice(),
        outline.body.as_slice(),
        out,
    )
}

/// The one response that is written for a reply, all of whose value is carried.
///
/// # Errors
///
/// `NoMemory`.
pub fn write_response(
    alloc: Global,
    service: &Service,
    operation: u32,
    reply: &Reply,
) -> Result<Message, NoMemory>
    requires servable { Servable (service_data service.now) }
    requires goal { HasGoal (service_data service.now) (goal_of operation (reply_role reply.now)) }
    requires fits { Fits (service_data service.now).table any_text
        (goal_place (service_data service.now) (goal_of operation (reply_role reply.now))) (reply_val reply.now) }
    requires carried { rest_form.uncarried (service_data service.now) (goal_of operation (reply_role reply.now)) (reply_val reply.now)
        ≡ [] }
    ensures { (host : List ℕ) → IfOk result (λ message. message ≡ rest_form.written (service_data service.now)
        (goal_of operation (reply_role reply.now)) host (reply_val reply.now)) }
{
    let place = reply_place(service, operation, reply);
    let usual = usual_status(service, operation, reply);
    let outline = outlined(alloc, &place, usual, value_in(reply))?;
    response_of(alloc, told_of(service, operation, reply), outline)
}

/// Appends the text of the response that `write_response` makes. No message is made, and the bytes of a raw payload are copied once.
///
/// # Errors
///
/// `NoMemory`, and then `out` is as before.
pub fn append_response(
    alloc: Global,
    service: &Service,
    operation: u32,
    reply: &Reply,
    out: &mut Vec<u8>,
) -> Result<(), NoMemory>
    requires servable { Servable (service_data service.now) }
    requires goal { HasGoal (service_data service.now) (goal_of operation (reply_role reply.now)) }
    requires fits { Fits (service_data service.now).table any_text
        (goal_place (service_data service.now) (goal_of operation (reply_role reply.now))) (reply_val reply.now) }
    requires carried { rest_form.uncarried (service_data service.now) (goal_of operation (reply_role reply.now)) (reply_val reply.now)
        ≡ [] }
    ensures written { (host : List ℕ) → OnOk result (out.new.items ≡ out.old.items ++ written
        (rest_form.written (service_data service.now) (goal_of operation (reply_role reply.now)) host (reply_val reply.now))) }
    ensures unchanged { OnErr result (out.new.items ≡ out.old.items) }
{
    let place = reply_place(service, operation, reply);
    let usual = usual_status(service, operation, reply);
    let outline = outlined(alloc, &place, usual, value_in(reply))?;
    put_response(alloc, told_of(service, operation, reply), &outline, out)
}
