// What the turn of one request comes to, by itself or through the back.
ghost use Rattle.std.specs.Prelude.{◌≡◌, ◌≤◌, []};
ghost use Rattle.std.specs.Io.KnownBytes.{prepend_known};
ghost use Rattle.sm_io.specs.Reading.{LosesPrefix};
ghost use Rattle.sm_io.specs.Seen.{stream};
ghost use Rattle.sm_http.specs.declared.message.Message.{Message};
ghost use Rattle.sm_session.specs.Turns.{TurnBy, back_end as the_back_end};
ghost use Rattle.sm_session.specs.Sessions.{turn_end as the_turn_end};
ghost use Rattle.sm_session.specs.Responding.{ComesTo, HasAsked};
ghost use Rattle.sm_session.specs.steps.Turning.{IsLost, LosesBack, RepliesSo, AnswersSo};

use crate::own_answers::back_answer;
use crate::responder::{Responder, Turn};
use crate::session_end::SessionEnd;
use crate::taking::take_reply;
use sm_http::{Head, Held, HttpRefusal, Message, says_close};
use sm_io::{PutRefusal, Sink, Source};
use sm_tree::NoMemory;
use std::alloc::Global;

/// The answer to a request, and the end that the back brings.
#[derive(Drop)]
pub struct Answered {
    pub answer: Message,
    pub ending: Option<SessionEnd>,
}

// The end that the back brings where it ends its connection.
fn back_end(closes: bool) -> Option<SessionEnd>
    ensures { result ≡ the_back_end closes }
{
    if closes {
        Some(SessionEnd::Closed)
    } else {
        None
    }
}

/// Why the session ends behind a turn: what the back brings, the request's own `close`, or that no turn may come.
pub(crate) fn turn_end(after: u64, asked: &Head, ending: Option<SessionEnd>) -> Option<SessionEnd>
    ensures { result ≡ the_turn_end after asked.now ending }
{
    if let Some(end) = ending {
        return Some(end);
    }
    if says_close(asked) {
        return Some(SessionEnd::Closed);
    }
    if after == 0 {
        return Some(SessionEnd::Quota);
    }
    None
}

// The answer where the back's bytes are no answer, behind which the session ends so.
fn lost(alloc: Global, why: HttpRefusal, end: SessionEnd) -> Result<Answered, SessionEnd>
    ensures { IsLost why end result }
{
    match back_answer(alloc, why) {
        Ok(answer) => Ok(Answered {
            answer,
            ending: Some(end),
        }),
        Err(NoMemory) => Err(SessionEnd::NoMemory),
    }
}

// What a refusal of the back's bytes comes to.
fn lose_back(alloc: Global, why: HttpRefusal) -> Result<Answered, SessionEnd>
    ensures { LosesBack why result }
{
    match why {
        HttpRefusal::ReadFault => Err(SessionEnd::BackRead),
        HttpRefusal::NoMemory => Err(SessionEnd::NoMemory),
        HttpRefusal::Ended => lost(alloc, HttpRefusal::Ended, SessionEnd::BackEnded),
        HttpRefusal::Head => broken(alloc, HttpRefusal::Head),
        HttpRefusal::HeadTooLarge => broken(alloc, HttpRefusal::HeadTooLarge),
        HttpRefusal::Coding => broken(alloc, HttpRefusal::Coding),
        HttpRefusal::Length => broken(alloc, HttpRefusal::Length),
        HttpRefusal::TooLong => broken(alloc, HttpRefusal::TooLong),
        HttpRefusal::Chunk => broken(alloc, HttpRefusal::Chunk),
    }
}

fn broken(alloc: Global, why: HttpRefusal) -> Result<Answered, SessionEnd>
    ensures { IsLost why (SessionEnd.BackFraming why) result }
{
    lost(alloc, why, SessionEnd::BackFraming(why))
}

// Reads the back's answer to what it was asked.
fn hear_back<R: Responder, C: Source>(
    alloc: Global,
    responder: &R,
    store: &mut R::Store,
    back_in: &mut C,
    held: &mut Held,
    buf: &mut [u8; 4096],
    call: R::Call,
) -> Result<Answered, SessionEnd>
    requires stands { R.stands responder.now store.old }
    requires asked { HasAsked (R.calls responder.now call) }
    ensures replies { RepliesSo (R.replying responder.now) (R.calls responder.now call)
        (stream (prepend_known held.old (C.left back_in.old)) (C.faults back_in.old))
        (stream (prepend_known held.new (C.left back_in.new)) (C.faults back_in.new)) (C.left back_in.new) result }
    ensures alike { R.alike responder.now store.old store.new }
    ensures taken { LosesPrefix (C.left back_in.old) (C.left back_in.new) }
    ensures later { C.faults back_in.old ≤ C.faults back_in.new }
{
    match take_reply(alloc, responder, store, back_in, held, buf, call) {
        Ok(Some((answer, closes))) => Ok(Answered {
            answer,
            ending: back_end(closes),
        }),
        Ok(None) => lost(alloc, HttpRefusal::Ended, SessionEnd::BackEnded),
        Err(why) => lose_back(alloc, why),
    }
}

/// What a request that was read comes to. What the back is asked is put to it as one piece.
pub(crate) fn answer_request<R: Responder, C: Source, D: Sink>(
    alloc: Global,
    responder: &R,
    store: &mut R::Store,
    back_in: &mut C,
    back_out: &mut D,
    held: &mut Held,
    buf: &mut [u8; 4096],
    text: &[u8],
    turn: Turn<R::Call>,
) -> Result<Answered, SessionEnd>
    requires stands { R.stands responder.now store.old }
    requires read { (m : Message) × ComesTo (R.asking responder.now) (R.calls responder.now) m [] text.now turn }
    ensures comes { (m : Message) → ComesTo (R.asking responder.now) (R.calls responder.now) m [] text.now turn
        → AnswersSo (R.asking responder.now) (TurnBy (R.asking responder.now) (R.replying responder.now)) m
        (stream (prepend_known held.old (C.left back_in.old)) (C.faults back_in.old))
        (stream (prepend_known held.new (C.left back_in.new)) (C.faults back_in.new)) (C.left back_in.new)
        (stream (D.written back_out.old) (D.faults back_out.old)) (stream (D.written back_out.new) (D.faults back_out.new)) result }
    ensures alike { R.alike responder.now store.old store.new }
    ensures taken { LosesPrefix (C.left back_in.old) (C.left back_in.new) }
    ensures later { C.faults back_in.old ≤ C.faults back_in.new }
    ensures put_later { D.faults back_out.old ≤ D.faults back_out.new }
{
    let call = match turn {
        Turn::Answered(answer) => {
            return Ok(Answered {
                answer,
                ending: None,
            });
        }
        Turn::Asking(call) => call,
    };
    match back_out.put(text) {
        Ok(()) => {}
        Err(PutRefusal::Failed) => return Err(SessionEnd::BackWrite),
        Err(PutRefusal::NoMemory) => return Err(SessionEnd::NoMemory),
    }
    hear_back(alloc, responder, store, back_in, held, buf, call)
}
