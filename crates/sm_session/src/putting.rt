// Answers, put as one piece.
ghost use Rattle.std.specs.Prelude.{◌≡◌, ◌≤◌, IfOk, IsErrOf, if◌then◌else◌};
ghost use Rattle.sm_io.specs.Causes.{HasCause};
ghost use Rattle.sm_io.specs.Writing.{Puts};
ghost use Rattle.sm_http.specs.Connections.{with_close as the_closing};
ghost use Rattle.sm_http.specs.Written.{written};
ghost use Rattle.sm_session.specs.Sessions.{answer_text};

use sm_http::{Head, Message, for_head, with_close, write_message};
use sm_io::{PutRefusal, Sink};
use sm_tree::NoMemory;
use std::alloc::Global;

// Puts a message as one piece. Its text is made first, in room that is used again.
fn put_message<K: Sink>(
    alloc: Global,
    sink: &mut K,
    text: &mut Vec<u8>,
    message: &Message,
) -> Result<(), PutRefusal>
    ensures bytes { Puts (K.written sink.old) (K.written sink.new) (written message.now) result }
    ensures later { K.faults sink.old ≤ K.faults sink.new }
    ensures cause { HasCause (IsErrOf result PutRefusal.Failed) (K.faults sink.old) (K.faults sink.new) }
{
    text.clear();
    match write_message(alloc, message, text) {
        Ok(()) => {}
        Err(NoMemory) => return Err(PutRefusal::NoMemory),
    }
    sink.put(text.as_slice())
}

// An answer behind which the session ends, or goes on.
fn closing(alloc: Global, closes: bool, answer: Message) -> Result<Message, NoMemory>
    ensures { IfOk result (λ said. said ≡ (if closes then the_closing answer else answer)) }
{
    if closes {
        return with_close(alloc, answer);
    }
    Ok(answer)
}

/// Puts the answer to a request with this head, as one piece.
pub(crate) fn put_answer<K: Sink>(
    alloc: Global,
    sink: &mut K,
    text: &mut Vec<u8>,
    asked: &Head,
    closes: bool,
    answer: Message,
) -> Result<(), PutRefusal>
    ensures bytes { Puts (K.written sink.old) (K.written sink.new) (answer_text asked.now closes answer) result }
    ensures later { K.faults sink.old ≤ K.faults sink.new }
    ensures cause { HasCause (IsErrOf result PutRefusal.Failed) (K.faults sink.old) (K.faults sink.new) }
{
    let answer = match closing(alloc, closes, answer) {
        Ok(answer) => answer,
        Err(NoMemory) => return Err(PutRefusal::NoMemory),
    };
    let answer = for_head(asked, answer);
    put_message(alloc, sink, text, &answer)
}

/// Puts an answer behind which the session ends, and which answers no request.
pub(crate) fn put_closing<K: Sink>(
    alloc: Global,
    sink: &mut K,
    text: &mut Vec<u8>,
    answer: Message,
) -> Result<(), PutRefusal>
    ensures bytes { Puts (K.written sink.old) (K.written sink.new) (written (the_closing answer)) result }
    ensures later { K.faults sink.old ≤ K.faults sink.new }
    ensures cause { HasCause (IsErrOf result PutRefusal.Failed) (K.faults sink.old) (K.faults sink.new) }
{
    let closing = match with_close(alloc, answer) {
        Ok(closing) => closing,
        Err(NoMemory) => return Err(PutRefusal::NoMemory),
    };
    put_message(alloc, sink, text, &closing)
}
