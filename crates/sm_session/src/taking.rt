// Messages taken of a source: their bodies go to a responder in pieces.
ghost use Rattle.std.specs.Prelude.{◌≡◌, ◌≤◌, ◌<◌, take, IsErrOf, Some, None};
ghost use Rattle.std.specs.Io.KnownBytes.{prepend_known};
ghost use Rattle.sm_io.specs.Causes.{HasCause};
ghost use Rattle.sm_io.specs.Reading.{LosesPrefix};
ghost use Rattle.sm_http.specs.declared.message.Message.{Message};
ghost use Rattle.sm_http.specs.declared.message.BodyLeft.TheVariants.{Done};
ghost use Rattle.sm_http.specs.Limits.{piece_limit};
ghost use Rattle.sm_http.specs.Calls.{IsWithinLimit};
ghost use Rattle.sm_session.specs.Responding.{HasAsked, HasRead};
ghost use Rattle.sm_session.specs.steps.Feeding.{FeedsRest, ReadsBody, OfRequest, OfReply};
ghost use Rattle.sm_session.specs.steps.Taking.{TakesRequest, TakesReply};

use crate::responder::{Responder, Turn};
use sm_http::{
    BodyLeft, Head, Held, HttpRefusal, Message, MessageSide, read_head, read_piece, says_close,
};
use sm_io::Source;
use sm_tree::NoMemory;
use std::alloc::Global;

// Hands the first piece of a body on, and then the rest, piece by piece.
fn feed_rest<R: Responder, S: Source>(
    alloc: Global,
    responder: &R,
    store: &mut R::Store,
    source: &mut S,
    held: &mut Held,
    left: &mut BodyLeft,
    buf: &mut [u8; 4096],
    first: usize,
    body: R::Body,
) -> Result<R::Body, HttpRefusal>
    requires stands { R.stands responder.now store.old }
    requires begun { HasRead (R.reads responder.now body) }
    requires within { IsWithinLimit left.old }
    requires few { first ≤ piece_limit }
    requires done { first ≡ 0 → left.old ≡ Done }
    ensures bytes { FeedsRest (R.reads responder.now body) (R.reads responder.now) left.old
        (prepend_known held.old (S.left source.old)) (prepend_known held.new (S.left source.new)) (S.left source.new)
        (take first buf.old) result }
    ensures alike { R.alike responder.now store.old store.new }
    ensures taken { LosesPrefix (S.left source.old) (S.left source.new) }
    ensures later { S.faults source.old ≤ S.faults source.new }
    ensures cause { HasCause (IsErrOf result HttpRefusal.ReadFault) (S.faults source.old) (S.faults source.new) }
{
    let mut body = body;
    let mut count = first;
    while count > 0 {
        match responder.piece(alloc, store, &mut body, &buf[..count]) {
            Ok(()) => {}
            Err(NoMemory) => return Err(HttpRefusal::NoMemory),
        }
        count = match read_piece(source, held, left, buf) {
            Ok(count) => count,
            Err(refusal) => return Err(refusal),
        };
    }
    Ok(body)
}

// Reads the body of a request. Its first piece is read before it is begun, so whether it is empty is known for both codings.
fn read_request<R: Responder, S: Source>(
    alloc: Global,
    responder: &R,
    store: &mut R::Store,
    source: &mut S,
    held: &mut Held,
    buf: &mut [u8; 4096],
    head: &Head,
    begun: BodyLeft,
) -> Result<R::Body, HttpRefusal>
    requires stands { R.stands responder.now store.old }
    requires within { IsWithinLimit begun }
    ensures bytes { ReadsBody (OfRequest (R.reads responder.now) head.now) begun
        (prepend_known held.old (S.left source.old)) (prepend_known held.new (S.left source.new)) (S.left source.new) result }
    ensures alike { R.alike responder.now store.old store.new }
    ensures taken { LosesPrefix (S.left source.old) (S.left source.new) }
    ensures later { S.faults source.old ≤ S.faults source.new }
    ensures cause { HasCause (IsErrOf result HttpRefusal.ReadFault) (S.faults source.old) (S.faults source.new) }
{
    let mut left = begun;
    let count = match read_piece(source, held, &mut left, buf) {
        Ok(count) => count,
        Err(refusal) => return Err(refusal),
    };
    let body = match responder.begin_request(alloc, store, head, count == 0) {
        Ok(body) => body,
        Err(NoMemory) => return Err(HttpRefusal::NoMemory),
    };
    feed_rest(
        alloc, responder, store, source, held, &mut left, buf, count, body,
    )
}

// Reads the body of the back's answer to a request, in the same way.
fn read_reply<R: Responder, S: Source>(
    alloc: Global,
    responder: &R,
    store: &mut R::Store,
    source: &mut S,
    held: &mut Held,
    buf: &mut [u8; 4096],
    call: R::Call,
    head: &Head,
    begun: BodyLeft,
) -> Result<R::Body, HttpRefusal>
    requires stands { R.stands responder.now store.old }
    requires asked { HasAsked (R.calls responder.now call) }
    requires within { IsWithinLimit begun }
    ensures bytes { ReadsBody (OfReply (R.reads responder.now) (R.calls responder.now call) head.now) begun
        (prepend_known held.old (S.left source.old)) (prepend_known held.new (S.left source.new)) (S.left source.new) result }
    ensures alike { R.alike responder.now store.old store.new }
    ensures taken { LosesPrefix (S.left source.old) (S.left source.new) }
    ensures later { S.faults source.old ≤ S.faults source.new }
    ensures cause { HasCause (IsErrOf result HttpRefusal.ReadFault) (S.faults source.old) (S.faults source.new) }
{
    let mut left = begun;
    let count = match read_piece(source, held, &mut left, buf) {
        Ok(count) => count,
        Err(refusal) => return Err(refusal),
    };
    let body = match responder.begin_reply(alloc, store, call, head, count == 0) {
        Ok(body) => body,
        Err(NoMemory) => return Err(HttpRefusal::NoMemory),
    };
    feed_rest(
        alloc, responder, store, source, held, &mut left, buf, count, body,
    )
}

/// Takes the next request, and says what it comes to. What the back is asked is appended to `out`.
pub(crate) fn take_request<R: Responder, S: Source>(
    alloc: Global,
    responder: &R,
    store: &mut R::Store,
    source: &mut S,
    held: &mut Held,
    buf: &mut [u8; 4096],
    out: &mut Vec<u8>,
) -> Result<Option<(Head, Turn<R::Call>)>, HttpRefusal>
    requires stands { R.stands responder.now store.old }
    ensures bytes { TakesRequest (R.asking responder.now) (R.calls responder.now) (prepend_known held.old (S.left source.old))
        (prepend_known held.new (S.left source.new)) (S.left source.new) out.old.items out.new.items result }
    ensures alike { R.alike responder.now store.old store.new }
    ensures taken { LosesPrefix (S.left source.old) (S.left source.new) }
    ensures later { S.faults source.old ≤ S.faults source.new }
    ensures cause { HasCause (IsErrOf result HttpRefusal.ReadFault) (S.faults source.old) (S.faults source.new) }
{
    let (head, begun) = match read_head(alloc, source, held, MessageSide::Request) {
        Ok(Some(found)) => found,
        Ok(None) => return Ok(None),
        Err(refusal) => return Err(refusal),
    };
    let body = match read_request(alloc, responder, store, source, held, buf, &head, begun) {
        Ok(body) => body,
        Err(refusal) => return Err(refusal),
    };
    match responder.finish_request(alloc, store, body, out) {
        Ok(turn) => Ok(Some((head, turn))),
        Err(NoMemory) => Err(HttpRefusal::NoMemory),
    }
}

/// Takes the back's answer to a request: the answer to the front, and whether the back ends its connection.
pub(crate) fn take_reply<R: Responder, S: Source>(
    alloc: Global,
    responder: &R,
    store: &mut R::Store,
    source: &mut S,
    held: &mut Held,
    buf: &mut [u8; 4096],
    call: R::Call,
) -> Result<Option<(Message, bool)>, HttpRefusal>
    requires stands { R.stands responder.now store.old }
    requires asked { HasAsked (R.calls responder.now call) }
    ensures bytes { TakesReply (R.replying responder.now) (R.calls responder.now call) (prepend_known held.old (S.left source.old))
        (prepend_known held.new (S.left source.new)) (S.left source.new) result }
    ensures alike { R.alike responder.now store.old store.new }
    ensures taken { LosesPrefix (S.left source.old) (S.left source.new) }
    ensures later { S.faults source.old ≤ S.faults source.new }
    ensures cause { HasCause (IsErrOf result HttpRefusal.ReadFault) (S.faults source.old) (S.faults source.new) }
{
    let (head, begun) = match read_head(alloc, source, held, MessageSide::Response) {
        Ok(Some(found)) => found,
        Ok(None) => return Ok(None),
        Err(refusal) => return Err(refusal),
    };
    let closes = says_close(&head);
    let body = match read_reply(
        alloc, responder, store, source, held, buf, call, &head, begun,
    ) {
        Ok(body) => body,
        Err(refusal) => return Err(refusal),
    };
    match responder.finish_reply(alloc, store, body) {
        Ok(answer) => Ok(Some((answer, closes))),
        Err(NoMemory) => Err(HttpRefusal::NoMemory),
    }
}
