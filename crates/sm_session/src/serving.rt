// A session, run over two sources and two sinks.
ghost use Rattle.std.specs.Prelude.{◌≤◌};
ghost use Rattle.std.specs.Io.KnownBytes.{prepend_known};
ghost use Rattle.sm_io.specs.Seen.{stream, link_seen};
ghost use Rattle.sm_session.specs.Turns.{TurnBy};
ghost use Rattle.sm_session.specs.Sessions.{turn_limit};
ghost use Rattle.sm_session.specs.Ends.{SessionRun};
ghost use Rattle.sm_session.specs.steps.Turning.{Refused, RefusesFront, FinishesTurn, RunsTurn};

use crate::own_answers::framing_answer;
use crate::putting::{put_answer, put_closing};
use crate::responder::Responder;
use crate::session_end::SessionEnd;
use crate::taking::take_request;
use crate::turning::{Answered, answer_request, turn_end};
use sm_http::{Head, Held, HttpRefusal};
use sm_io::{PutRefusal, Sink, Source};
use sm_tree::NoMemory;
use std::alloc::Global;

/// The most turns of one session.
pub const TURN_LIMIT: u64 = 1_000_000;

// What a session holds between its turns: bytes that were read and not used yet, and room that each turn uses again.
#[derive(Drop)]
struct Lanes {
    front_held: Held,
    back_held: Held,
    piece: [u8; 4096],
    text: Vec<u8>,
}

// Answers bytes of the front that are no request.
fn answer_framing<K: Sink>(
    alloc: Global,
    front_out: &mut K,
    text: &mut Vec<u8>,
    why: HttpRefusal,
) -> SessionEnd
    ensures refused { Refused why (stream (K.written front_out.old) (K.faults front_out.old))
        (stream (K.written front_out.new) (K.faults front_out.new)) result }
    ensures later { K.faults front_out.old ≤ K.faults front_out.new }
{
    let answer = match framing_answer(alloc, why) {
        Ok(answer) => answer,
        Err(NoMemory) => return SessionEnd::NoMemory,
    };
    match put_closing(alloc, front_out, text, answer) {
        Ok(()) => SessionEnd::FrontFraming(why),
        Err(PutRefusal::Failed) => SessionEnd::FrontWrite,
        Err(PutRefusal::NoMemory) => SessionEnd::NoMemory,
    }
}

// What a refusal of the front's bytes comes to.
fn refuse_front<K: Sink>(
    alloc: Global,
    front_out: &mut K,
    text: &mut Vec<u8>,
    why: HttpRefusal,
) -> SessionEnd
    ensures refused { RefusesFront why (stream (K.written front_out.old) (K.faults front_out.old))
        (stream (K.written front_out.new) (K.faults front_out.new)) result }
    ensures later { K.faults front_out.old ≤ K.faults front_out.new }
{
    match why {
        HttpRefusal::ReadFault => SessionEnd::FrontRead,
        HttpRefusal::NoMemory => SessionEnd::NoMemory,
        HttpRefusal::Ended => SessionEnd::FrontEnded,
        HttpRefusal::Head => answer_framing(alloc, front_out, text, HttpRefusal::Head),
        HttpRefusal::HeadTooLarge => answer_framing(
            alloc,
            front_out,
            text,
            HttpRefusal::HeadTooLarge,
        ),
        HttpRefusal::Coding => answer_framing(alloc, front_out, text, HttpRefusal::Coding),
        HttpRefusal::Length => answer_framing(alloc, front_out, text, HttpRefusal::Length),
        HttpRefusal::TooLong => answer_framing(alloc, front_out, text, HttpRefusal::TooLong),
        HttpRefusal::Chunk => answer_framing(alloc, front_out, text, HttpRefusal::Chunk),
    }
}

// Puts the answer of a turn, and says why the session ends behind it, if it does.
fn finish_turn<B: Sink>(
    alloc: Global,
    front_out: &mut B,
    text: &mut Vec<u8>,
    asked: &Head,
    after: u64,
    answered: Answered,
) -> Option<SessionEnd>
    ensures finishes { FinishesTurn after asked.now answered (stream (B.written front_out.old) (B.faults front_out.old))
        (stream (B.written front_out.new) (B.faults front_out.new)) result }
    ensures later { B.faults front_out.old ≤ B.faults front_out.new }
{
    let Answered { answer, ending } = answered;
    let end = turn_end(after, asked, ending);
    match put_answer(alloc, front_out, text, asked, end.is_some(), answer) {
        Ok(()) => end,
        Err(PutRefusal::Failed) => Some(SessionEnd::FrontWrite),
        Err(PutRefusal::NoMemory) => Some(SessionEnd::NoMemory),
    }
}

// Runs one turn, behind which so many may come. None where the session goes on.
fn run_turn<R: Responder, A: Source, B: Sink, C: Source, D: Sink>(
    alloc: Global,
    responder: &R,
    store: &mut R::Store,
    front_in: &mut A,
    front_out: &mut B,
    back_in: &mut C,
    back_out: &mut D,
    lanes: &mut Lanes,
    after: u64,
) -> Option<SessionEnd>
    requires stands { R.stands responder.now store.old }
    ensures runs { RunsTurn (TurnBy (R.asking responder.now) (R.replying responder.now)) after
        (link_seen (stream (prepend_known lanes.old.front_held (A.left front_in.old)) (A.faults front_in.old))
        (stream (B.written front_out.old) (B.faults front_out.old))
        (stream (prepend_known lanes.old.back_held (C.left back_in.old)) (C.faults back_in.old))
        (stream (D.written back_out.old) (D.faults back_out.old)))
        (link_seen (stream (prepend_known lanes.new.front_held (A.left front_in.new)) (A.faults front_in.new))
        (stream (B.written front_out.new) (B.faults front_out.new))
        (stream (prepend_known lanes.new.back_held (C.left back_in.new)) (C.faults back_in.new))
        (stream (D.written back_out.new) (D.faults back_out.new)))
        (link_seen (stream (A.left front_in.new) (A.faults front_in.new)) (stream (B.written front_out.new) (B.faults front_out.new))
        (stream (C.left back_in.new) (C.faults back_in.new)) (stream (D.written back_out.new) (D.faults back_out.new))) result }
    ensures alike { R.alike responder.now store.old store.new }
{
    sm_http::laws::one_answer();
    lanes.text.clear();
    let (head, turn) = match take_request(
        alloc,
        responder,
        store,
        front_in,
        &mut lanes.front_held,
        &mut lanes.piece,
        &mut lanes.text,
    ) {
        Ok(Some(taken)) => taken,
        Ok(None) => return Some(SessionEnd::Closed),
        Err(why) => return Some(refuse_front(alloc, front_out, &mut lanes.text, why)),
    };
    let answered = match answer_request(
        alloc,
        responder,
        store,
        back_in,
        back_out,
        &mut lanes.back_held,
        &mut lanes.piece,
        lanes.text.as_slice(),
        turn,
    ) {
        Ok(answered) => answered,
        Err(end) => return Some(end),
    };
    finish_turn(alloc, front_out, &mut lanes.text, &head, after, answered)
}

/// Runs a session: takes requests of the front one after the other, and puts the answer of each, until it ends.
///
/// What is put are the bytes that `TurnsFrom` says of the bytes of both sources; after a fault, prefixes of them.
pub fn run_session<R: Responder, A: Source, B: Sink, C: Source, D: Sink>(
    alloc: Global,
    responder: &R,
    store: &mut R::Store,
    front_in: &mut A,
    front_out: &mut B,
    back_in: &mut C,
    back_out: &mut D,
) -> SessionEnd
    requires stands { R.stands responder.now store.old }
    ensures session { SessionRun (TurnBy (R.asking responder.now) (R.replying responder.now)) turn_limit
        (link_seen (stream (A.left front_in.old) (A.faults front_in.old)) (stream (B.written front_out.old) (B.faults front_out.old))
        (stream (C.left back_in.old) (C.faults back_in.old)) (stream (D.written back_out.old) (D.faults back_out.old)))
        (link_seen (stream (A.left front_in.new) (A.faults front_in.new)) (stream (B.written front_out.new) (B.faults front_out.new))
        (stream (C.left back_in.new) (C.faults back_in.new)) (stream (D.written back_out.new) (D.faults back_out.new))) result }
    ensures alike { R.alike responder.now store.old store.new }
{
    let mut lanes = Lanes {
        front_held: Held::new(alloc),
        back_held: Held::new(alloc),
        piece: [0; 4096],
        text: Vec::new(alloc),
    };
    let mut after = TURN_LIMIT - 1;
    loop {
        match run_turn(
            alloc, responder, store, front_in, front_out, back_in, back_out, &mut lanes, after,
        ) {
            None => after -= 1,
            Some(end) => return end,
        }
    }
}
