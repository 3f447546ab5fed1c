// Messages of Smithy RPC v2 CBOR, written, and which values they carry.
ghost use Rattle.std.specs.Prelude.{◌≡◌, ◌<◌, ◌++◌, [], IfOk, OnErr, OnOk, ℕ, List, length, string_bytes};
ghost use Rattle.sm_http.specs.Written.{written};
ghost use Rattle.sm_shapes.specs.Fitting.{Fits, any_text};
ghost use Rattle.sm_shapes.specs.ValueView.{val_of};
ghost use Rattle.sm_service.specs.Servable.{Servable};
ghost use Rattle.sm_service.specs.ServiceView.{service_data};
ghost use Rattle.sm_messages.specs.Answers.{reply_role, reply_val};
ghost use Rattle.sm_messages.specs.Carrying.{FitsOn, TellsCarried, TellsFirst};
ghost use Rattle.sm_messages.specs.Goals.{HasGoal, goal_of, the_input};
ghost use Rattle.sm_messages.specs.TreeBodies.{error_of, fields_in, goal_place};
ghost use Rattle.sm_rpc.specs.Heads.{path_of};
ghost use Rattle.sm_rpc.specs.Messages.{body_of, has_nothing, is_unit_val, rpc_form};

use crate::context::Rpc;
use sm_bodies::BodyForm;
use sm_codec::CborLeaves;
use sm_http::{Message, MessageSide};
use sm_messages::{
    Reply, append_request_to, append_response_of, carried_on, error_at, input_body, input_shape,
    not_carried_on, operation_at, output_shape, reply_body, reply_status, request_to, response_of,
};
use sm_service::Service;
use sm_shapes::values::Value;
use sm_tree::{NoMemory, Path};
use std::alloc::Global;

// The type of bodies.
const CBOR_TYPE: &str = "application/cbor";

// The fields of each message, and of each request.
const PROTOCOL: (&str, &[u8]) = ("smithy-protocol", b"rpc-v2-cbor");

const ACCEPT: (&str, &[u8]) = ("accept", b"application/cbor");

// `/service/Service/operation/Operation`.
fn path_text(alloc: Global, service: &Service, operation: u32) -> Result<String, NoMemory>
    requires { operation < length (service_data service.now).operations }
    ensures { IfOk result (λ path. string_bytes path ≡ path_of (service_data service.now) operation) }
{
    let mut path = String::new(alloc);
    path.push_str("/service/")?;
    path.push_str(service.name.as_str())?;
    path.push_str("/operation/")?;
    path.push_str(operation_at(service, operation).name.as_str())?;
    Ok(path)
}

// Whether a value has no fields.
fn has_nothing(value: &Value) -> bool
    ensures { result ≡ has_nothing (fields_in (val_of value.now)) }
{
    match value {
        Value::Structure(fields) => match fields.as_slice() {
            [] => true,
            [_, ..] => false,
        },
        _ => true,
    }
}

// Whether an input is the prelude's `Unit`.
fn is_unit_input(service: &Service, operation: u32, value: &Value) -> bool
    requires servable { Servable (service_data service.now) }
    requires number { operation < length (service_data service.now).operations }
    ensures { result ≡ is_unit_val (service_data service.now) (goal_of operation the_input) (val_of value.now) }
{
    service.table.is_unit(input_shape(service, operation)) && has_nothing(value)
}

// The body of an input: no bytes, where it is the prelude's `Unit`.
fn request_body(
    alloc: Global,
    service: &Service,
    operation: u32,
    value: &Value,
) -> Result<Vec<u8>, NoMemory>
    requires servable { Servable (service_data service.now) }
    requires number { operation < length (service_data service.now).operations }
    requires fits { Fits (service_data service.now).table any_text
        (goal_place (service_data service.now) (goal_of operation the_input)) (val_of value.now) }
    requires carried { rpc_form.uncarried (service_data service.now) (goal_of operation the_input) (val_of value.now) ≡ [] }
    ensures { IfOk result (λ body.
        body.items ≡ body_of (service_data service.now) (goal_of operation the_input) (val_of value.now)) }
{
    sm_codec::laws::cbor_leaves_written();
    if is_unit_input(service, operation, value) {
        return Ok(Vec::new(alloc));
    }
    input_body(
        alloc,
        BodyForm::Cbor,
        service,
        operation,
        value,
        &CborLeaves,
    )
}

// Whether a reply is the output `Unit`.
fn is_unit_reply(service: &Service, operation: u32, reply: &Reply) -> bool
    requires servable { Servable (service_data service.now) }
    requires number { operation < length (service_data service.now).operations }
    ensures { result ≡ is_unit_val (service_data service.now) (goal_of operation (reply_role reply.now)) (reply_val reply.now) }
{
    match reply {
        Reply::Output(value) => {
            service.table.is_unit(output_shape(service, operation)) && has_nothing(value)
        }
        Reply::Error(_, _) => false,
    }
}

// The id of the error that a reply is; of an output nothing.
fn told_of<'s>(service: &'s Service, operation: u32, reply: &Reply) -> &'s str
    requires { HasGoal (service_data service.now) (goal_of operation (reply_role reply.now)) }
    ensures { result.now ≡ (error_of (service_data service.now) (goal_of operation (reply_role reply.now))).id }
{
    match reply {
        Reply::Output(_) => "",
        Reply::Error(place, _) => error_at(service, operation, *place).id.as_str(),
    }
}

// The body of a reply. An error's begins with its id.
fn response_body(
    alloc: Global,
    service: &Service,
    operation: u32,
    reply: &Reply,
) -> Result<Vec<u8>, NoMemory>
    requires servable { Servable (service_data service.now) }
    requires goal { HasGoal (service_data service.now) (goal_of operation (reply_role reply.now)) }
    requires fits { Fits (service_data service.now).table any_text
        (goal_place (service_data service.now) (goal_of operation (reply_role reply.now))) (reply_val reply.now) }
    requires carried { rpc_form.uncarried (service_data service.now) (goal_of operation (reply_role reply.now)) (reply_val reply.now)
        ≡ [] }
    ensures { IfOk result (λ body.
        body.items ≡ body_of (service_data service.now) (goal_of operation (reply_role reply.now)) (reply_val reply.now)) }
{
    sm_codec::laws::cbor_leaves_written();
    if is_unit_reply(service, operation, reply) {
        return Ok(Vec::new(alloc));
    }
    reply_body(
        alloc,
        BodyForm::Cbor,
        service,
        operation,
        reply,
        told_of(service, operation, reply),
        &CborLeaves,
    )
}

impl Rpc {
    /// The one request to a host that is written for an input, all of which is carried.
    ///
    /// # Errors
    ///
    /// `NoMemory`.
    pub fn write_request(
        &self,
        alloc: Global,
        service: &Service,
        operation: u32,
        value: &Value,
        host: &str,
    ) -> Result<Message, NoMemory>
        requires servable { Servable (service_data service.now) }
        requires number { operation < length (service_data service.now).operations }
        requires fits { Fits (service_data service.now).table any_text
            (goal_place (service_data service.now) (goal_of operation the_input)) (val_of value.now) }
        requires carried { rpc_form.uncarried (service_data service.now) (goal_of operation the_input)
            (val_of value.now) ≡ [] }
        ensures { IfOk result (λ message. message ≡
            rpc_form.written (service_data service.now) (goal_of operation the_input) host.now (val_of value.now)) }
    {
        let body = request_body(alloc, service, operation, value)?;
        let target = path_text(alloc, service, operation)?;
        let more = [PROTOCOL, ACCEPT];
        request_to(alloc, "POST", target.as_str(), host, CBOR_TYPE, &more, body)
    }

    /// Appends the text of the request that `write_request` makes: `write_message` of sm_http appends the same.
    ///
    /// # Errors
    ///
    /// `NoMemory`, and then `out` is as before.
    pub fn append_request(
        &self,
        alloc: Global,
        service: &Service,
        operation: u32,
        value: &Value,
        host: &str,
        out: &mut Vec<u8>,
    ) -> Result<(), NoMemory>
        requires servable { Servable (service_data service.now) }
        requires number { operation < length (service_data service.now).operations }
        requires fits { Fits (service_data service.now).table any_text
            (goal_place (service_data service.now) (goal_of operation the_input)) (val_of value.now) }
        requires carried { rpc_form.uncarried (service_data service.now) (goal_of operation the_input)
            (val_of value.now) ≡ [] }
        ensures written { OnOk result (out.new.items ≡ out.old.items ++ written
            (rpc_form.written (service_data service.now) (goal_of operation the_input) host.now (val_of value.now))) }
        ensures unchanged { OnErr result (out.new.items ≡ out.old.items) }
    {
        let body = request_body(alloc, service, operation, value)?;
        let target = path_text(alloc, service, operation)?;
        let more = [PROTOCOL, ACCEPT];
        append_request_to(
            alloc,
            "POST",
            target.as_str(),
            host,
            CBOR_TYPE,
            &more,
            body.as_slice(),
            out,
        )
    }

    /// The one response that is written for a reply, all of whose value is carried.
    ///
    /// # Errors
    ///
    /// `NoMemory`.
    pub fn write_response(
        &self,
        alloc: Global,
        service: &Service,
        operation: u32,
        reply: &Reply,
    ) -> Result<Message, NoMemory>
        requires servable { Servable (service_data service.now) }
        requires goal { HasGoal (service_data service.now) (goal_of operation (reply_role reply.now)) }
        requires fits { Fits (service_data service.now).table any_text
            (goal_place (service_data service.now) (goal_of operation (reply_role reply.now))) (reply_val reply.now) }
        requires carried { rpc_form.uncarried (service_data service.now) (goal_of operation (reply_role reply.now))
            (reply_val reply.now) ≡ [] }
        ensures { (host : List ℕ) → IfOk result (λ message. message ≡ rpc_form.written (service_data service.now)
            (goal_of operation (reply_role reply.now)) host (reply_val reply.now)) }
    {
        let body = response_body(alloc, service, operation, reply)?;
        let status = reply_status(service, operation, reply);
        response_of(alloc, status, CBOR_TYPE, &[PROTOCOL], body)
    }

    /// Appends the text of the response that `write_response` makes.
    ///
    /// # Errors
    ///
    /// `NoMemory`, and then `out` is as before.
    pub fn append_response(
        &self,
        alloc: Global,
        service: &Service,
        operation: u32,
        reply: &Reply,
        out: &mut Vec<u8>,
    ) -> Result<(), NoMemory>
        requires servable { Servable (service_data service.now) }
        requires goal { HasGoal (service_data service.now) (goal_of operation (reply_role reply.now)) }
        requires fits { Fits (service_data service.now).table any_text
            (goal_place (service_data service.now) (goal_of operation (reply_role reply.now))) (reply_val reply.now) }
        requires carried { rpc_form.uncarried (service_data service.now) (goal_of operation (reply_role reply.now))
            (reply_val reply.now) ≡ [] }
        ensures written { (host : List ℕ) → OnOk result (out.new.items ≡ out.old.items ++ written
            (rpc_form.written (service_data service.now) (goal_of operation (reply_role reply.now)) host
            (reply_val reply.now))) }
        ensures unchanged { OnErr result (out.new.items ≡ out.old.items) }
    {
        let body = response_body(alloc, service, operation, reply)?;
        let status = reply_status(service, operation, reply);
        append_response_of(alloc, status, CBOR_TYPE, &[PROTOCOL], body.as_slice(), out)
    }

    /// Whether a value is carried: of an operation's input on the side of requests, of its output or one of its errors on the side of
    /// responses. No memory.
    pub fn carried(
        &self,
        service: &Service,
        operation: u32,
        side: MessageSide,
        value: &Value,
    ) -> bool
        requires servable { Servable (service_data service.now) }
        requires number { operation < length (service_data service.now).operations }
        requires fits { FitsOn (service_data service.now) operation side (val_of value.now) }
        ensures { TellsCarried (rpc_form.uncarried (service_data service.now)) (service_data service.now) operation side
            (val_of value.now) result }
    {
        carried_on(service, operation, side, value, &CborLeaves)
    }

    /// The way to the first part of such a value, in model order, that isn't carried.
    ///
    /// # Errors
    ///
    /// `NoMemory`.
    pub fn not_carried(
        &self,
        alloc: Global,
        service: &Service,
        operation: u32,
        side: MessageSide,
        value: &Value,
    ) -> Result<Option<Path>, NoMemory>
        requires servable { Servable (service_data service.now) }
        requires number { operation < length (service_data service.now).operations }
        requires fits { FitsOn (service_data service.now) operation side (val_of value.now) }
        ensures { IfOk result (λ path. TellsFirst (rpc_form.uncarried (service_data service.now)) (service_data service.now)
            operation side (val_of value.now) path) }
    {
        not_carried_on(alloc, service, operation, side, value, &CborLeaves)
    }
}
