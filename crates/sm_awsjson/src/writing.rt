// Messages of AWS JSON, written, and which values they carry.
ghost use Rattle.std.specs.Prelude.{◌≡◌, ◌<◌, ◌++◌, [], IfOk, OnErr, OnOk, ℕ, List, length, string_bytes};
ghost use Rattle.sm_http.specs.Written.{written};
ghost use Rattle.sm_shapes.specs.Fitting.{Fits, any_text};
ghost use Rattle.sm_shapes.specs.ValueView.{val_of};
ghost use Rattle.sm_service.specs.Servable.{Servable};
ghost use Rattle.sm_service.specs.ServiceView.{service_data};
ghost use Rattle.sm_messages.specs.Answers.{reply_role, reply_val};
ghost use Rattle.sm_messages.specs.Carrying.{FitsOn, TellsCarried, TellsFirst};
ghost use Rattle.sm_messages.specs.Goals.{HasGoal, goal_of, the_input};
ghost use Rattle.sm_messages.specs.TreeBodies.{error_of, goal_place};
ghost use Rattle.sm_awsjson.specs.Heads.{json_type, target_of, type_told};
ghost use Rattle.sm_awsjson.specs.Messages.{aws_form, body_of};

use crate::context::AwsJson;
use crate::version::AwsVersion;
use sm_bodies::BodyForm;
use sm_codec::JsonLeaves;
use sm_http::{Message, MessageSide};
use sm_messages::{
    Reply, append_request_to, append_response_of, carried_on, error_at, input_body, not_carried_on,
    operation_at, reply_body, reply_status, request_to, response_of,
};
use sm_service::{ErrorShape, Service};
use sm_shapes::values::Value;
use sm_tree::{NoMemory, Path};
use std::alloc::Global;

// How leaves are spelled, and members named.
pub(crate) const LEAVES: JsonLeaves = JsonLeaves { json_names: false };

// `Service.Operation`.
fn target_text(alloc: Global, service: &Service, operation: u32) -> Result<String, NoMemory>
    requires { operation < length (service_data service.now).operations }
    ensures { IfOk result (λ text. string_bytes text ≡ target_of (service_data service.now) operation) }
{
    let mut text = String::new(alloc);
    text.push_str(service.name.as_str())?;
    text.push_str(".")?;
    text.push_str(operation_at(service, operation).name.as_str())?;
    Ok(text)
}

// The text that tells an error in a body.
fn type_told(version: AwsVersion, error: &ErrorShape) -> &str
    ensures { result.now ≡ type_told version error.now.id }
{
    match version {
        AwsVersion::V10 => error.id.as_str(),
        AwsVersion::V11 => error.name(),
    }
}

impl AwsJson {
    // The content type of the version.
    pub(crate) fn content_type(&self) -> &'static str
        ensures { result.now ≡ json_type self.now.version }
    {
        match self.version {
            AwsVersion::V10 => "application/x-amz-json-1.0",
            AwsVersion::V11 => "application/x-amz-json-1.1",
        }
    }

    // The body of an input.
    fn request_body(
        &self,
        alloc: Global,
        service: &Service,
        operation: u32,
        value: &Value,
    ) -> Result<Vec<u8>, NoMemory>
        requires servable { Servable (service_data service.now) }
        requires number { operation < length (service_data service.now).operations }
        requires fits { Fits (service_data service.now).table any_text
            (goal_place (service_data service.now) (goal_of operation the_input)) (val_of value.now) }
        requires carried { (aws_form self.now.version).uncarried (service_data service.now) (goal_of operation the_input)
            (val_of value.now) ≡ [] }
        ensures { IfOk result (λ body.
            body.items ≡ body_of self.now.version (service_data service.now) (goal_of operation the_input) (val_of value.now)) }
    {
        sm_codec::laws::json_leaves_written();
        input_body(alloc, BodyForm::Json, service, operation, value, &LEAVES)
    }

    // The text that tells the error that a reply is; of an output nothing.
    fn told_of<'s>(&self, service: &'s Service, operation: u32, reply: &Reply) -> &'s str
        requires { HasGoal (service_data service.now) (goal_of operation (reply_role reply.now)) }
        ensures { result.now ≡ type_told self.now.version
            (error_of (service_data service.now) (goal_of operation (reply_role reply.now))).id }
    {
        match reply {
            Reply::Output(_) => "",
            Reply::Error(place, _) => type_told(self.version, error_at(service, operation, *place)),
        }
    }

    // The body of a reply. An error's begins with its name.
    fn response_body(
        &self,
        alloc: Global,
        service: &Service,
        operation: u32,
        reply: &Reply,
    ) -> Result<Vec<u8>, NoMemory>
        requires servable { Servable (service_data service.now) }
        requires goal { HasGoal (service_data service.now) (goal_of operation (reply_role reply.now)) }
        requires fits { Fits (service_data service.now).table any_text
            (goal_place (service_data service.now) (goal_of operation (reply_role reply.now))) (reply_val reply.now) }
        requires carried { (aws_form self.now.version).uncarried (service_data service.now) (goal_of operation (reply_role reply.now))
            (reply_val reply.now) ≡ [] }
        ensures { IfOk result (λ body. body.items ≡ body_of self.now.version (service_data service.now)
            (goal_of operation (reply_role reply.now)) (reply_val reply.now)) }
    {
        sm_codec::laws::json_leaves_written();
        let told = self.told_of(service, operation, reply);
        reply_body(
            alloc,
            BodyForm::Json,
            service,
            operation,
            reply,
            told,
            &LEAVES,
        )
    }

    /// The one request to a host that is written for an input, all of which is carried.
    ///
    /// # Errors
    ///
    /// `NoMemory`.
    pub fn write_request(
        &self,
        alloc: Global,
        service: &Service,
        operation: u32,
        value: &Value,
        host: &str,
    ) -> Result<Message, NoMemory>
        requires servable { Servable (service_data service.now) }
        requires number { operation < length (service_data service.now).operations }
        requires fits { Fits (service_data service.now).table any_text
            (goal_place (service_data service.now) (goal_of operation the_input)) (val_of value.now) }
        requires carried { (aws_form self.now.version).uncarried (service_data service.now) (goal_of operation the_input)
            (val_of value.now) ≡ [] }
        ensures { IfOk result (λ message. message ≡
            (aws_form self.now.version).written (service_data service.now) (goal_of operation the_input) host.now (val_of value.now)) }
    {
        let body = self.request_body(alloc, service, operation, value)?;
        let target = target_text(alloc, service, operation)?;
        let more = [("x-amz-target", target.as_bytes())];
        request_to(alloc, "POST", "/", host, self.content_type(), &more, body)
    }

    /// Appends the text of the request that `write_request` makes: `write_message` of sm_http appends the same.
    ///
    /// # Errors
    ///
    /// `NoMemory`, and then `out` is as before.
    pub fn append_request(
        &self,
        alloc: Global,
        service: &Service,
        operation: u32,
        value: &Value,
        host: &str,
        out: &mut Vec<u8>,
    ) -> Result<(), NoMemory>
        requires servable { Servable (service_data service.now) }
        requires number { operation < length (service_data service.now).operations }
        requires fits { Fits (service_data service.now).table any_text
            (goal_place (service_data service.now) (goal_of operation the_input)) (val_of value.now) }
        requires carried { (aws_form self.now.version).uncarried (service_data service.now) (goal_of operation the_input)
            (val_of value.now) ≡ [] }
        ensures written { OnOk result (out.new.items ≡ out.old.items ++ written
            ((aws_form self.now.version).written (service_data service.now) (goal_of operation the_input) host.now (val_of value.now))) }
        ensures unchanged { OnErr result (out.new.items ≡ out.old.items) }
    {
        let body = self.request_body(alloc, service, operation, value)?;
        let target = target_text(alloc, service, operation)?;
        let more = [("x-amz-target", target.as_bytes())];
        append_request_to(
            alloc,
            "POST",
            "/",
            host,
            self.content_type(),
            &more,
            body.as_slice(),
            out,
        )
    }

    /// The one response that is written for a reply, all of whose value is carried.
    ///
    /// # Errors
    ///
    /// `NoMemory`.
    pub fn write_response(
        &self,
        alloc: Global,
        service: &Service,
        operation: u32,
        reply: &Reply,
    ) -> Result<Message, NoMemory>
        requires servable { Servable (service_data service.now) }
        requires goal { HasGoal (service_data service.now) (goal_of operation (reply_role reply.now)) }
        requires fits { Fits (service_data service.now).table any_text
            (goal_place (service_data service.now) (goal_of operation (reply_role reply.now))) (reply_val reply.now) }
        requires carried { (aws_form self.now.version).uncarried (service_data service.now) (goal_of operation (reply_role reply.now))
            (reply_val reply.now) ≡ [] }
        ensures { (host : List ℕ) → IfOk result (λ message. message ≡ (aws_form self.now.version).written (service_data service.now)
            (goal_of operation (reply_role reply.now)) host (reply_val reply.now)) }
    {
        let body = self.response_body(alloc, service, operation, reply)?;
        let status = reply_status(service, operation, reply);
        response_of(alloc, status, self.content_type(), &[], body)
    }

    /// Appends the text of the response that `write_response` makes.
    ///
    /// # Errors
    ///
    /// `NoMemory`, and then `out` is as before.
    pub fn append_response(
        &self,
        alloc: Global,
        service: &Service,
        operation: u32,
        reply: &Reply,
        out: &mut Vec<u8>,
    ) -> Result<(), NoMemory>
        requires servable { Servable (service_data service.now) }
        requires goal { HasGoal (service_data service.now) (goal_of operation (reply_role reply.now)) }
        requires fits { Fits (service_data service.now).table any_text
            (goal_place (service_data service.now) (goal_of operation (reply_role reply.now))) (reply_val reply.now) }
        requires carried { (aws_form self.now.version).uncarried (service_data service.now) (goal_of operation (reply_role reply.now))
            (reply_val reply.now) ≡ [] }
        ensures written { (host : List ℕ) → OnOk result (out.new.items ≡ out.old.items ++ written
            ((aws_form self.now.version).written (service_data service.now) (goal_of operation (reply_role reply.now)) host
            (reply_val reply.now))) }
        ensures unchanged { OnErr result (out.new.items ≡ out.old.items) }
    {
        let body = self.response_body(alloc, service, operation, reply)?;
        let status = reply_status(service, operation, reply);
        append_response_of(
            alloc,
            status,
            self.content_type(),
            &[],
            body.as_slice(),
            out,
        )
    }

    /// Whether a value is carried: of an operation's input on the side of requests, of its output or one of its errors on the side of
    /// responses. No memory.
    pub fn carried(
        &self,
        service: &Service,
        operation: u32,
        side: MessageSide,
        value: &Value,
    ) -> bool
        requires servable { Servable (service_data service.now) }
        requires number { operation < length (service_data service.now).operations }
        requires fits { FitsOn (service_data service.now) operation side (val_of value.now) }
        ensures { TellsCarried ((aws_form self.now.version).uncarried (service_data service.now)) (service_data service.now) operation side
            (val_of value.now) result }
    {
        carried_on(service, operation, side, value, &LEAVES)
    }

    /// The way to the first part of such a value, in model order, that isn't carried.
    ///
    /// # Errors
    ///
    /// `NoMemory`.
    pub fn not_carried(
        &self,
        alloc: Global,
        service: &Service,
        operation: u32,
        side: MessageSide,
        value: &Value,
    ) -> Result<Option<Path>, NoMemory>
        requires servable { Servable (service_data service.now) }
        requires number { operation < length (service_data service.now).operations }
        requires fits { FitsOn (service_data service.now) operation side (val_of value.now) }
        ensures { IfOk result (λ path. TellsFirst ((aws_form self.now.version).uncarried (service_data service.now)) (service_data service.now)
            operation side (val_of value.now) path) }
    {
        not_carried_on(alloc, service, operation, side, value, &LEAVES)
    }
}
