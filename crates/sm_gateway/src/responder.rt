// A gateway as what answers the requests of a session.
ghost use Rattle.std.specs.Prelude.{◌≡◌};
ghost use Rattle.sm_session.specs.Laws.{HasSomeAsked, HasSomeReply};
ghost use Rattle.sm_gateway.specs.GatewayView.{gateway_data};
ghost use Rattle.sm_gateway.specs.steps.Reading.{AsksSo, RepliesSo};

use crate::answers::{back_refused_answer, refused_answer};
use crate::body::{GatewayBody, GatewayCall};
use crate::carrying::{ask, tell};
use crate::gateway::Gateway;
use crate::reading::{begin_back, begin_front, finish_back, finish_front, read_on};
use sm_http::{Head, Message};
use sm_session::{Responder, Turn};
use sm_shapes::Patterns;
use sm_tree::NoMemory;
use std::alloc::Global;
use std::marker::PhantomData;

/// A gateway, with stores of patterns of a type.
#[derive(Drop)]
pub(crate) struct Crossings<'a, P: Patterns> {
    pub(crate) gateway: &'a Gateway,
    pub(crate) stores: PhantomData<P>,
    ghost some_asked: { HasSomeAsked (AsksSo (gateway_data gateway.now) P.test) },
    ghost some_reply: { HasSomeReply (AsksSo (gateway_data gateway.now) P.test) (RepliesSo (gateway_data gateway.now) P.test) },
}

impl<'a, P: Patterns> Responder for Crossings<'a, P> {
    type Store = P;

    type Body = GatewayBody;

    type Call = GatewayCall;

    ghost use Rattle.std.proofs.Common.{refl, sym, ap, ◌∙◌, subst};
    ghost use Rattle.sm_shapes.specs.InOrder.{AreStored};
    ghost use Rattle.sm_gateway.specs.GatewayView.{KeepsBoth};
    ghost use Rattle.sm_gateway.specs.steps.Reading.{GatewayHolds, GatewayReads, Stands, WasAsked, both_spoken};

    ghost asking = { λ r m a. AsksSo (gateway_data r.gateway.now) P.test m a };

    ghost replying = { λ r m said a. RepliesSo (gateway_data r.gateway.now) P.test m said a };

    ghost stands = { λ r s. Stands (gateway_data r.gateway.now) P.test
        × AreStored (gateway_data r.gateway.now).service.table.patterns (P.added s)
        × KeepsBoth r.gateway.now };

    ghost alike = { λ r s t. (P.added t ≡ P.added s) × (P.refused t ≡ P.refused s) × (P.refusals t ≡ P.refusals s) };

    ghost reads = { λ r body begun bytes. GatewayReads (both_spoken r.gateway.now) (gateway_data r.gateway.now) P.test body begun bytes };

    ghost holds = { λ r body bytes. GatewayHolds (both_spoken r.gateway.now) (gateway_data r.gateway.now) body bytes };

    ghost calls = { λ r call m. WasAsked (gateway_data r.gateway.now) P.test call.operation m };

    fn begin_request(
        &self,
        alloc: Global,
        _store: &mut P,
        head: &Head,
        empty: bool,
    ) -> Result<GatewayBody, NoMemory> {
        begin_front(alloc, self.gateway, head, empty)
    }

    fn begin_reply(
        &self,
        alloc: Global,
        _store: &mut P,
        call: GatewayCall,
        head: &Head,
        empty: bool,
    ) -> Result<GatewayBody, NoMemory> {
        begin_back(alloc, self.gateway, call, head, empty)
    }

    fn piece(
        &self,
        alloc: Global,
        store: &mut P,
        body: &mut GatewayBody,
        piece: &[u8],
    ) -> Result<(), NoMemory> {
        read_on(alloc, self.gateway, body, piece, store)
    }

    fn finish_request(
        &self,
        alloc: Global,
        store: &mut P,
        body: GatewayBody,
        out: &mut Vec<u8>,
    ) -> Result<Turn<GatewayCall>, NoMemory> {
        match finish_front(alloc, self.gateway, body, store) {
            Ok((operation, value)) => ask(alloc, self.gateway, operation, &value, out),
            Err(refusal) => match refused_answer(alloc, &refusal) {
                Ok(answer) => Ok(Turn::Answered(answer)),
                Err(NoMemory) => Err(NoMemory),
            },
        }
    }

    fn finish_reply(
        &self,
        alloc: Global,
        store: &mut P,
        body: GatewayBody,
    ) -> Result<Message, NoMemory> {
        match finish_back(alloc, self.gateway, body, store) {
            Ok((operation, reply)) => tell(alloc, self.gateway, operation, &reply),
            Err(refusal) => back_refused_answer(alloc, &refusal),
        }
    }

    ghost alike_itself = { λ r s. (refl, refl, refl) };

    ghost alike_then = { λ r s t u x y. (y.0 ∙ x.0, y.1 ∙ x.1, y.2 ∙ x.2) };

    ghost alike_stands = { λ r s t x y. (
      y.0,
      subst (λ added. AreStored (gateway_data r.gateway.now).service.table.patterns added) (sym x.0) y.1,
      y.2,
    ) };

    ghost one_asked = { λ r m a b x y. x.1 b y.0 };

    ghost some_asked = { λ r. r.some_asked };

    ghost one_reply = { λ r m said a b x y. x.1 b y.0 };

    ghost some_reply = { λ r. r.some_reply };
}
