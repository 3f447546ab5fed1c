// Messages of AWS JSON, read: begun at their heads, and whole.
ghost use Rattle.std.specs.Prelude.{◌≡◌, ◌<◌, IfOk, [], length};
ghost use Rattle.sm_json.specs.Stands.{json_source};
ghost use Rattle.sm_shapes.specs.Fitting.{Test};
ghost use Rattle.sm_shapes.specs.InOrder.{AreStored, DefaultsPass};
ghost use Rattle.sm_shapes.specs.TableData.{shape_count};
ghost use Rattle.sm_shapes.specs.TableView.{table_data};
ghost use Rattle.sm_service.specs.Servable.{Servable};
ghost use Rattle.sm_service.specs.ServiceView.{service_data};
ghost use Rattle.sm_messages.specs.Answers.{AnswersRequest, AnswersResponse};
ghost use Rattle.sm_messages.specs.Begun.{held};
ghost use Rattle.sm_messages.specs.Goals.{a_request, a_response};
ghost use Rattle.sm_messages.specs.HeadAnswers.{IsJudged};
ghost use Rattle.sm_messages.specs.MessageAnswers.{MessageAnswers};
ghost use Rattle.sm_messages.specs.Names.{told_by_head};
ghost use Rattle.sm_messages.specs.Pieces.{BeginsAs, IsLive, StartsFed, UnlessMemory};
ghost use Rattle.sm_awsjson.specs.Begun.{AwsBegun, aws_state, kept_fields, kept_message};
ghost use Rattle.sm_awsjson.specs.Messages.{aws_form};

use crate::body::AwsBody;
use crate::context::AwsJson;
use sm_bodies::{Body, JsonBody};
use sm_http::{Field, Head, Message};
use sm_messages::{
    MessageRefusal, Reply, ResponseAddress, input_shape, is_empty, judge_request, judge_response,
    message_begun, output_shape, told_by_head, written_field,
};
use sm_service::Service;
use sm_shapes::Patterns;
use sm_shapes::values::Value;
use sm_tree::NoMemory;
use std::alloc::Global;

// The fields by which a head still tells what it told.
fn kept_fields(alloc: Global, head: &Head) -> Result<Vec<Field>, NoMemory>
    ensures { IfOk result (λ fields. fields.items ≡ kept_fields (told_by_head head.now)) }
{
    let mut fields = Vec::new(alloc);
    if let Some(told) = told_by_head(head) {
        fields.push(written_field(alloc, "x-amzn-errortype", told)?)?;
    }
    Ok(fields)
}

// A body that is held.
fn held(alloc: Global, operation: u32, head: &Head) -> Result<AwsBody, MessageRefusal>
    ensures { UnlessMemory (λ body. aws_state body ≡ held operation (kept_message head.now)) result }
{
    let Ok(fields) = kept_fields(alloc, head) else {
        return Err(MessageRefusal::NoMemory);
    };
    match message_begun(alloc, &head.start, fields) {
        Ok(message) => Ok(AwsBody::Held { operation, message }),
        Err(_) => Err(MessageRefusal::NoMemory),
    }
}

// A body that is fed.
fn fed(
    alloc: Global,
    service: &Service,
    operation: u32,
    shape: u32,
) -> Result<AwsBody, MessageRefusal>
    requires number { shape < shape_count (table_data service.now.table) }
    ensures { UnlessMemory (λ body. StartsFed json_source (table_data service.now.table) operation shape (aws_state body)) result }
{
    let begun: Result<JsonBody, NoMemory> = Body::begin(alloc, &service.table, shape);
    match begun {
        Ok(Body { reader, decoder }) => Ok(AwsBody::Fed {
            operation,
            reader,
            decoder,
        }),
        Err(_) => Err(MessageRefusal::NoMemory),
    }
}

impl AwsJson {
    /// Begins to read a request with this head, whose body is empty or not.
    ///
    /// # Errors
    ///
    /// `UnknownOperation`, `Unserved`, `MediaType`, in this order; `NoMemory`.
    pub fn begin_request(
        &self,
        alloc: Global,
        service: &Service,
        head: &Head,
        empty: bool,
    ) -> Result<AwsBody, MessageRefusal>
        requires { Servable (service_data service.now) }
        ensures { (test : Test) → BeginsAs (IsJudged (aws_form self.now.version) (service_data service.now) a_request head.now empty)
            (λ body. IsLive (aws_state body)
            × AwsBegun self.now.version (service_data service.now) test a_request body head.now empty []) result }
    {
        let named = self.operation_of(service, head);
        let wanted = Some(self.content_type());
        match judge_request(alloc, service, head, named, wanted, empty) {
            Ok(operation) => {
                if empty {
                    held(alloc, operation, head)
                } else {
                    fed(alloc, service, operation, input_shape(service, operation))
                }
            }
            Err(refusal) => Err(refusal),
        }
    }

    /// Begins to read the response to an operation with this head, whose body is empty or not.
    ///
    /// # Errors
    ///
    /// `MediaType`, `UnknownError` where the head names the error, in this order; `NoMemory`.
    pub fn begin_response(
        &self,
        alloc: Global,
        service: &Service,
        operation: u32,
        head: &Head,
        empty: bool,
    ) -> Result<AwsBody, MessageRefusal>
        requires servable { Servable (service_data service.now) }
        requires number { operation < length (service_data service.now).operations }
        ensures { (test : Test)
            → BeginsAs (IsJudged (aws_form self.now.version) (service_data service.now) (a_response operation) head.now empty)
            (λ body. IsLive (aws_state body)
            × AwsBegun self.now.version (service_data service.now) test (a_response operation) body head.now empty []) result }
    {
        let told = told_by_head(head);
        match judge_response(service, operation, head, told) {
            Ok(ResponseAddress::Output) => {
                if empty {
                    held(alloc, operation, head)
                } else {
                    fed(alloc, service, operation, output_shape(service, operation))
                }
            }
            Ok(ResponseAddress::Error(_)) => held(alloc, operation, head),
            Ok(ResponseAddress::Named) => held(alloc, operation, head),
            Err(refusal) => Err(refusal),
        }
    }

    /// What a request comes to: the number of its operation, and its value. The store must have the patterns of the service's table, and isn't
    /// changed.
    ///
    /// # Errors
    ///
    /// `UnknownOperation`, `Unserved`, `MediaType`, `Syntax`, `Fault`, in this order; `NoMemory`.
    pub fn read_request<P: Patterns>(
        &self,
        alloc: Global,
        service: &Service,
        message: &Message,
        patterns: &mut P,
    ) -> Result<(u32, Value), MessageRefusal>
        requires servable { Servable (service_data service.now) }
        requires stored { AreStored (service_data service.now).table.patterns (P.added patterns.old) }
        requires pass { DefaultsPass (service_data service.now).table P.test }
        ensures answers { AnswersRequest (MessageAnswers (aws_form self.now.version) (service_data service.now) P.test a_request
            message.now.head message.now.body) result }
        ensures added { P.added patterns.new ≡ P.added patterns.old }
        ensures refused { P.refused patterns.new ≡ P.refused patterns.old }
        ensures refusals { P.refusals patterns.new ≡ P.refusals patterns.old }
    {
        let bytes = message.body.as_slice();
        let mut body = match self.begin_request(alloc, service, &message.head, is_empty(bytes)) {
            Ok(body) => body,
            Err(refusal) => return Err(refusal),
        };
        match body.piece(alloc, self, service, bytes, patterns) {
            Ok(()) => body.finish_request(alloc, self, service, patterns),
            Err(_) => Err(MessageRefusal::NoMemory),
        }
    }

    /// What the response to an operation comes to. The store must have the patterns of the service's table, and isn't changed.
    ///
    /// # Errors
    ///
    /// `MediaType`, `UnknownError` where the head names the error, `Syntax`, `UnknownError` else, `Fault`, in this order; `NoMemory`.
    pub fn read_response<P: Patterns>(
        &self,
        alloc: Global,
        service: &Service,
        operation: u32,
        message: &Message,
        patterns: &mut P,
    ) -> Result<Reply, MessageRefusal>
        requires servable { Servable (service_data service.now) }
        requires number { operation < length (service_data service.now).operations }
        requires stored { AreStored (service_data service.now).table.patterns (P.added patterns.old) }
        requires pass { DefaultsPass (service_data service.now).table P.test }
        ensures answers { AnswersResponse operation (MessageAnswers (aws_form self.now.version) (service_data service.now) P.test
            (a_response operation) message.now.head message.now.body) result }
        ensures added { P.added patterns.new ≡ P.added patterns.old }
        ensures refused { P.refused patterns.new ≡ P.refused patterns.old }
        ensures refusals { P.refusals patterns.new ≡ P.refusals patterns.old }
    {
        let bytes = message.body.as_slice();
        let empty = is_empty(bytes);
        let mut body = match self.begin_response(alloc, service, operation, &message.head, empty) {
            Ok(body) => body,
            Err(refusal) => return Err(refusal),
        };
        match body.piece(alloc, self, service, bytes, patterns) {
            Ok(()) => body.finish_response(alloc, self, service, patterns),
            Err(_) => Err(MessageRefusal::NoMemory),
        }
    }
}
