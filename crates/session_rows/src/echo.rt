// A responder of rows: it answers with the body of a message, its own or the back's.
ghost use Rattle.std.specs.Prelude.{◌≡◌};
ghost use Rattle.session_rows.specs.Echoes.{starts_here};

use sm_http::{Head, Message, Start};
use sm_session::{Responder, Turn, line_answer};
use sm_tree::NoMemory;
use std::alloc::Global;

/// Answers a request to `/here` with its body, and any other with the body of the back's answer, which it asks with the request's body.
#[derive(Drop)]
pub struct Echo;

/// How much of bodies was handed to it.
#[derive(Drop)]
pub struct Handed {
    pub bytes: u64,
}

/// A request that the back was asked.
#[derive(Drop)]
pub struct EchoCall;

/// A body that is kept.
#[derive(Drop)]
pub struct EchoBody {
    bytes: Vec<u8>,
    // its request is answered at once
    here: bool,
}

// Whether a message is answered at once.
fn is_here(head: &Head) -> bool
    ensures { result ≡ starts_here head.now.start }
{
    match &head.start {
        Start::Request { target, .. } => target.as_str() == "/here",
        Start::Response { .. } => false,
    }
}

impl Responder for Echo {
    type Store = Handed;

    type Body = EchoBody;

    type Call = EchoCall;

    ghost use Rattle.std.proofs.Common.{refl, sym, ◌∙◌};
    ghost use Rattle.session_rows.specs.Echoes.{EchoAsks, EchoHolds, EchoReplies, EchoReads, echo_asked, echo};

    ghost asking = { λ r m a. EchoAsks m a };

    ghost replying = { λ r m said a. EchoReplies m said a };

    ghost stands = { λ r s. Unit {0} };

    ghost alike = { λ r s t. Unit {0} };

    ghost reads = { λ r body begun bytes. EchoReads body begun bytes };

    ghost holds = { λ r body bytes. EchoHolds body bytes };

    ghost calls = { λ r call m. Unit {0} };

    fn begin_request(
        &self,
        alloc: Global,
        _store: &mut Handed,
        head: &Head,
        _empty: bool,
    ) -> Result<EchoBody, NoMemory> {
        Ok(EchoBody {
            bytes: Vec::new(alloc),
            here: is_here(head),
        })
    }

    fn begin_reply(
        &self,
        alloc: Global,
        _store: &mut Handed,
        _call: EchoCall,
        head: &Head,
        _empty: bool,
    ) -> Result<EchoBody, NoMemory> {
        Ok(EchoBody {
            bytes: Vec::new(alloc),
            here: is_here(head),
        })
    }

    fn piece(
        &self,
        _alloc: Global,
        store: &mut Handed,
        body: &mut EchoBody,
        piece: &[u8],
    ) -> Result<(), NoMemory> {
        store.bytes = store.bytes.saturating_add(piece.len() as u64);
        body.bytes.extend_from_slice(piece)?;
        Ok(())
    }

    fn finish_request(
        &self,
        alloc: Global,
        _store: &mut Handed,
        body: EchoBody,
        out: &mut Vec<u8>,
    ) -> Result<Turn<EchoCall>, NoMemory> {
        let EchoBody { bytes, here } = body;
        if here {
            let answer = line_answer(alloc, 200, bytes)?;
            return Ok(Turn::Answered(answer));
        }
        out.extend_from_slice(&bytes)?;
        Ok(Turn::Asking(EchoCall))
    }

    fn finish_reply(
        &self,
        alloc: Global,
        _store: &mut Handed,
        body: EchoBody,
    ) -> Result<Message, NoMemory> {
        line_answer(alloc, 200, body.bytes)
    }

    ghost alike_itself = { λ r s. tt };

    ghost alike_then = { λ r s t u x y. tt };

    ghost alike_stands = { λ r s t x y. tt };

    ghost one_asked = { λ r m a b x y. x ∙ sym y };

    ghost some_asked = { λ r m deny. deny (echo_asked m) refl };

    ghost one_reply = { λ r m said a b x y. x ∙ sym y };

    ghost some_reply = { λ r m said text x deny. deny (echo said) refl };
}
