// Messages of Smithy RPC v2 CBOR, read: begun at their heads, and whole.
ghost use Rattle.std.specs.Prelude.{◌≡◌, ◌<◌, [], length, true};
ghost use Rattle.sm_cbor.specs.Stands.{cbor_source};
ghost use Rattle.sm_shapes.specs.Fitting.{Test};
ghost use Rattle.sm_shapes.specs.InOrder.{AreStored, DefaultsPass};
ghost use Rattle.sm_shapes.specs.TableData.{shape_count};
ghost use Rattle.sm_shapes.specs.TableView.{table_data};
ghost use Rattle.sm_service.specs.Servable.{Servable};
ghost use Rattle.sm_service.specs.ServiceView.{service_data};
ghost use Rattle.sm_messages.specs.Answers.{AnswersRequest, AnswersResponse};
ghost use Rattle.sm_messages.specs.Begun.{held};
ghost use Rattle.sm_messages.specs.Goals.{a_request, a_response};
ghost use Rattle.sm_messages.specs.HeadAnswers.{IsJudged};
ghost use Rattle.sm_messages.specs.MessageAnswers.{MessageAnswers};
ghost use Rattle.sm_messages.specs.Pieces.{BeginsAs, IsLive, StartsFed, UnlessMemory};
ghost use Rattle.sm_rpc.specs.Begun.{RpcBegun, rpc_state, kept_message};
ghost use Rattle.sm_rpc.specs.Heads.{is_marked};
ghost use Rattle.sm_rpc.specs.Messages.{rpc_form};

use crate::body::RpcBody;
use crate::context::Rpc;
use crate::laws::reads_messages;
use sm_bodies::{Body, CborBody};
use sm_http::{Head, Message};
use sm_messages::{
    MessageRefusal, Reply, ResponseAddress, input_shape, is_empty, judge_request, judge_response,
    message_begun, output_shape,
};
use sm_service::Service;
use sm_shapes::Patterns;
use sm_shapes::values::Value;
use sm_tree::NoMemory;
use std::alloc::Global;

// Whether a head says that its message is one of the protocol. No memory.
fn is_marked(head: &Head) -> bool
    ensures { result ≡ is_marked head.now }
{
    match head.fields.only("smithy-protocol") {
        Some(value) => value == b"rpc-v2-cbor".as_slice(),
        None => false,
    }
}

// A body that is held.
fn held(alloc: Global, operation: u32, head: &Head) -> Result<RpcBody, MessageRefusal>
    ensures { UnlessMemory (λ body. rpc_state body ≡ held operation (kept_message head.now)) result }
{
    match message_begun(alloc, &head.start, Vec::new(alloc)) {
        Ok(message) => Ok(RpcBody::Held { operation, message }),
        Err(_) => Err(MessageRefusal::NoMemory),
    }
}

// A body that is fed.
fn fed(
    alloc: Global,
    service: &Service,
    operation: u32,
    shape: u32,
) -> Result<RpcBody, MessageRefusal>
    requires number { shape < shape_count (table_data service.now.table) }
    ensures { UnlessMemory (λ body. StartsFed cbor_source (table_data service.now.table) operation shape (rpc_state body)) result }
{
    let begun: Result<CborBody, NoMemory> = Body::begin(alloc, &service.table, shape);
    match begun {
        Ok(Body { reader, decoder }) => Ok(RpcBody::Fed {
            operation,
            reader,
            decoder,
        }),
        Err(_) => Err(MessageRefusal::NoMemory),
    }
}

impl Rpc {
    // Begins to read a request that is one of the protocol.
    fn marked_request(
        &self,
        alloc: Global,
        service: &Service,
        head: &Head,
        empty: bool,
    ) -> Result<RpcBody, MessageRefusal>
        requires servable { Servable (service_data service.now) }
        requires marked { is_marked head.now ≡ true }
        ensures { (test : Test) → BeginsAs (IsJudged rpc_form (service_data service.now) a_request head.now empty)
            (λ body. IsLive (rpc_state body)
            × RpcBegun (service_data service.now) test a_request body head.now empty []) result }
    {
        reads_messages();
        let named = self.operation_of(service, head);
        match judge_request(alloc, service, head, named, Some("application/cbor"), empty) {
            Ok(operation) => {
                if empty {
                    held(alloc, operation, head)
                } else {
                    fed(alloc, service, operation, input_shape(service, operation))
                }
            }
            Err(refusal) => Err(refusal),
        }
    }

    /// Begins to read a request with this head, whose body is empty or not.
    ///
    /// # Errors
    ///
    /// `Protocol`, `UnknownOperation`, `Unserved`, `MediaType`, in this order; `NoMemory`.
    pub fn begin_request(
        &self,
        alloc: Global,
        service: &Service,
        head: &Head,
        empty: bool,
    ) -> Result<RpcBody, MessageRefusal>
        requires { Servable (service_data service.now) }
        ensures { (test : Test) → BeginsAs (IsJudged rpc_form (service_data service.now) a_request head.now empty)
            (λ body. IsLive (rpc_state body)
            × RpcBegun (service_data service.now) test a_request body head.now empty []) result }
    {
        if is_marked(head) {
            self.marked_request(alloc, service, head, empty)
        } else {
            Err(MessageRefusal::Protocol)
        }
    }

    // Begins to read a response that is one of the protocol.
    fn marked_response(
        &self,
        alloc: Global,
        service: &Service,
        operation: u32,
        head: &Head,
        empty: bool,
    ) -> Result<RpcBody, MessageRefusal>
        requires servable { Servable (service_data service.now) }
        requires number { operation < length (service_data service.now).operations }
        requires marked { is_marked head.now ≡ true }
        ensures { (test : Test)
            → BeginsAs (IsJudged rpc_form (service_data service.now) (a_response operation) head.now empty)
            (λ body. IsLive (rpc_state body)
            × RpcBegun (service_data service.now) test (a_response operation) body head.now empty []) result }
    {
        match judge_response(service, operation, head, None) {
            Ok(ResponseAddress::Output) => {
                if empty {
                    held(alloc, operation, head)
                } else {
                    fed(alloc, service, operation, output_shape(service, operation))
                }
            }
            Ok(ResponseAddress::Error(_)) => held(alloc, operation, head),
            Ok(ResponseAddress::Named) => held(alloc, operation, head),
            Err(refusal) => Err(refusal),
        }
    }

    /// Begins to read the response to an operation with this head, whose body is empty or not.
    ///
    /// # Errors
    ///
    /// `Protocol`, `MediaType`, in this order; `NoMemory`.
    pub fn begin_response(
        &self,
        alloc: Global,
        service: &Service,
        operation: u32,
        head: &Head,
        empty: bool,
    ) -> Result<RpcBody, MessageRefusal>
        requires servable { Servable (service_data service.now) }
        requires number { operation < length (service_data service.now).operations }
        ensures { (test : Test)
            → BeginsAs (IsJudged rpc_form (service_data service.now) (a_response operation) head.now empty)
            (λ body. IsLive (rpc_state body)
            × RpcBegun (service_data service.now) test (a_response operation) body head.now empty []) result }
    {
        if is_marked(head) {
            self.marked_response(alloc, service, operation, head, empty)
        } else {
            Err(MessageRefusal::Protocol)
        }
    }

    /// What a request comes to: the number of its operation, and its value. The store must have the patterns of the service's table, and isn't
    /// changed.
    ///
    /// # Errors
    ///
    /// `Protocol`, `UnknownOperation`, `Unserved`, `MediaType`, `Syntax`, `Fault`, in this order; `NoMemory`.
    pub fn read_request<P: Patterns>(
        &self,
        alloc: Global,
        service: &Service,
        message: &Message,
        patterns: &mut P,
    ) -> Result<(u32, Value), MessageRefusal>
        requires servable { Servable (service_data service.now) }
        requires stored { AreStored (service_data service.now).table.patterns (P.added patterns.old) }
        requires pass { DefaultsPass (service_data service.now).table P.test }
        ensures answers { AnswersRequest (MessageAnswers rpc_form (service_data service.now) P.test a_request
            message.now.head message.now.body) result }
        ensures added { P.added patterns.new ≡ P.added patterns.old }
        ensures refused { P.refused patterns.new ≡ P.refused patterns.old }
        ensures refusals { P.refusals patterns.new ≡ P.refusals patterns.old }
    {
        let bytes = message.body.as_slice();
        let mut body = match self.begin_request(alloc, service, &message.head, is_empty(bytes)) {
            Ok(body) => body,
            Err(refusal) => return Err(refusal),
        };
        match body.piece(alloc, self, service, bytes, patterns) {
            Ok(()) => body.finish_request(alloc, self, service, patterns),
            Err(_) => Err(MessageRefusal::NoMemory),
        }
    }

    /// What the response to an operation comes to. The store must have the patterns of the service's table, and isn't changed.
    ///
    /// # Errors
    ///
    /// `Protocol`, `MediaType`, `Syntax`, `UnknownError`, `Fault`, in this order; `NoMemory`.
    pub fn read_response<P: Patterns>(
        &self,
        alloc: Global,
        service: &Service,
        operation: u32,
        message: &Message,
        patterns: &mut P,
    ) -> Result<Reply, MessageRefusal>
        requires servable { Servable (service_data service.now) }
        requires number { operation < length (service_data service.now).operations }
        requires stored { AreStored (service_data service.now).table.patterns (P.added patterns.old) }
        requires pass { DefaultsPass (service_data service.now).table P.test }
        ensures answers { AnswersResponse operation (MessageAnswers rpc_form (service_data service.now) P.test
            (a_response operation) message.now.head message.now.body) result }
        ensures added { P.added patterns.new ≡ P.added patterns.old }
        ensures refused { P.refused patterns.new ≡ P.refused patterns.old }
        ensures refusals { P.refusals patterns.new ≡ P.refusals patterns.old }
    {
        let bytes = message.body.as_slice();
        let empty = is_empty(bytes);
        let mut body = match self.begin_response(alloc, service, operation, &message.head, empty) {
            Ok(body) => body,
            Err(refusal) => return Err(refusal),
        };
        match body.piece(alloc, self, service, bytes, patterns) {
            Ok(()) => body.finish_response(alloc, self, service, patterns),
            Err(_) => Err(MessageRefusal::NoMemory),
        }
    }
}
