// One message on the other side.
ghost use Rattle.std.specs.Prelude.{◌≡◌};
ghost use Rattle.sm_shapes.specs.InOrder.{AreStored};
ghost use Rattle.sm_gateway.specs.Answers.{CrossesRequest, CrossesResponse};
ghost use Rattle.sm_gateway.specs.GatewayData.{ServesAtBoth, ServesBoth};
ghost use Rattle.sm_gateway.specs.GatewayView.{KeepsBoth, gateway_data};
ghost use Rattle.sm_gateway.specs.steps.Reading.{ReadsBoth, ReadsRequest, ReadsResponse};

use crate::carrying::{ask_whole, tell_whole};
use crate::crossed::Crossed;
use crate::gateway::Gateway;
use crate::laws::each_is_form;
use crate::reading::{begin_front, finish_front, read_on};
use sm_http::Message;
use sm_protocols::begin_response;
use sm_protocols::sm_messages::{MessageRefusal, Reply, is_empty};
use sm_shapes::Patterns;
use sm_shapes::values::Value;
use std::alloc::Global;

// What a request comes to.
fn request_value<P: Patterns>(
    alloc: Global,
    gateway: &Gateway,
    message: &Message,
    patterns: &mut P,
) -> Result<(u32, Value), MessageRefusal>
    requires serves { ServesBoth (gateway_data gateway.now) P.test }
    requires kept { KeepsBoth gateway.now }
    requires reads { ReadsBoth (gateway_data gateway.now) }
    requires stored { AreStored (gateway_data gateway.now).service.table.patterns (P.added patterns.old) }
    ensures reads { ReadsRequest (gateway_data gateway.now) P.test message.now result }
    ensures added { P.added patterns.new ≡ P.added patterns.old }
    ensures refused { P.refused patterns.new ≡ P.refused patterns.old }
    ensures refusals { P.refusals patterns.new ≡ P.refusals patterns.old }
{
    let bytes = message.body.as_slice();
    let mut body = match begin_front(alloc, gateway, &message.head, is_empty(bytes)) {
        Ok(body) => body,
        Err(_) => return Err(MessageRefusal::NoMemory),
    };
    match read_on(alloc, gateway, &mut body, bytes, patterns) {
        Ok(()) => finish_front(alloc, gateway, body, patterns),
        Err(_) => Err(MessageRefusal::NoMemory),
    }
}

// What the back's answer to a request comes to.
fn response_reply<P: Patterns>(
    alloc: Global,
    gateway: &Gateway,
    operation: u32,
    message: &Message,
    patterns: &mut P,
) -> Result<Reply, MessageRefusal>
    requires serves { ServesBoth (gateway_data gateway.now) P.test }
    requires kept { KeepsBoth gateway.now }
    requires served { ServesAtBoth (gateway_data gateway.now) operation }
    requires stored { AreStored (gateway_data gateway.now).service.table.patterns (P.added patterns.old) }
    ensures reads { ReadsResponse (gateway_data gateway.now) P.test operation message.now result }
    ensures added { P.added patterns.new ≡ P.added patterns.old }
    ensures refused { P.refused patterns.new ≡ P.refused patterns.old }
    ensures refusals { P.refusals patterns.new ≡ P.refusals patterns.old }
{
    let bytes = message.body.as_slice();
    let service = &gateway.service;
    let back = &gateway.back;
    let empty = is_empty(bytes);
    let mut body = match begin_response(alloc, back, service, operation, &message.head, empty) {
        Ok(body) => body,
        Err(refusal) => return Err(refusal),
    };
    match body.piece(alloc, back, service, bytes, patterns) {
        Ok(()) => body.finish_response(alloc, back, service, patterns),
        Err(_) => Err(MessageRefusal::NoMemory),
    }
}

impl Gateway {
    /// What a request of the front is on the side of the back. The store must have the patterns of the service's table, and isn't changed.
    ///
    /// # Errors
    ///
    /// The first of `Protocol`, `UnknownOperation`, `Unserved`, `MediaType`, `Syntax`, `Fault`; a `Fault` of the kind `NotCarried` stands
    /// behind all others. `NoMemory`.
    pub fn cross_request<P: Patterns>(
        &self,
        alloc: Global,
        message: &Message,
        patterns: &mut P,
    ) -> Result<Crossed, MessageRefusal>
        requires serves { ServesBoth (gateway_data self.now) P.test }
        requires kept { KeepsBoth self.now }
        requires stored { AreStored (gateway_data self.now).service.table.patterns (P.added patterns.old) }
        ensures crosses { CrossesRequest (gateway_data self.now) P.test message.now result }
        ensures added { P.added patterns.new ≡ P.added patterns.old }
        ensures refused { P.refused patterns.new ≡ P.refused patterns.old }
        ensures refusals { P.refusals patterns.new ≡ P.refusals patterns.old }
    {
        each_is_form();
        let (operation, value) = match request_value(alloc, self, message, patterns) {
            Ok(read) => read,
            Err(refusal) => return Err(refusal),
        };
        match ask_whole(alloc, self, operation, &value) {
            Ok(far) => Ok(Crossed {
                operation,
                message: far,
            }),
            Err(refusal) => Err(refusal),
        }
    }

    /// What the back's answer to a request for the operation with this number is on the side of the front. The store must have the
    /// patterns of the service's table, and isn't changed.
    ///
    /// # Errors
    ///
    /// The first of `Protocol`, `MediaType`, `UnknownError`, `Syntax`, `Fault`; an error that the body names is looked for behind
    /// `Syntax`, and a `Fault` of the kind `NotCarried` stands behind all others. `NoMemory`.
    pub fn cross_response<P: Patterns>(
        &self,
        alloc: Global,
        operation: u32,
        message: &Message,
        patterns: &mut P,
    ) -> Result<Message, MessageRefusal>
        requires serves { ServesBoth (gateway_data self.now) P.test }
        requires kept { KeepsBoth self.now }
        requires served { ServesAtBoth (gateway_data self.now) operation }
        requires stored { AreStored (gateway_data self.now).service.table.patterns (P.added patterns.old) }
        ensures crosses { CrossesResponse (gateway_data self.now) P.test operation message.now result }
        ensures added { P.added patterns.new ≡ P.added patterns.old }
        ensures refused { P.refused patterns.new ≡ P.refused patterns.old }
        ensures refusals { P.refusals patterns.new ≡ P.refusals patterns.old }
    {
        each_is_form();
        match response_reply(alloc, self, operation, message, patterns) {
            Ok(reply) => tell_whole(alloc, self, operation, &reply),
            Err(refusal) => Err(refusal),
        }
    }
}
