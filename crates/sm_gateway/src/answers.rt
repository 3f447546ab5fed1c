// The answers to requests that are refused.
ghost use Rattle.std.specs.Prelude.{◌≡◌, IfOk};
ghost use Rattle.sm_http.specs.Connections.{with_close as the_closing};
ghost use Rattle.sm_session.specs.OwnAnswers.{framing_answer as the_framing_answer};
ghost use Rattle.sm_protocols.specs.messages.Answers.{RefusedAs};
ghost use Rattle.sm_protocols.specs.messages.MessageAnswers.{Refusal};
ghost use Rattle.sm_gateway.specs.RefusalAnswers.{back_refusal_answer, closing as closes_so, refusal_answer, refusal_line, refusal_status};
ghost use Rattle.sm_gateway.specs.RefusalAnswers.{word_line as the_word_line};
ghost use Rattle.sm_gateway.specs.Answers.{AnswersRefusal, IsSaid};
ghost use Rattle.sm_gateway.specs.steps.Telling.{ToldAs};

use sm_http::{HttpRefusal, Message, with_close};
use sm_lines::{fault_line, syntax_line, unserved_line};
use sm_protocols::sm_messages::MessageRefusal;
use sm_session::{back_line, framing_answer, line_answer};
use sm_tree::NoMemory;
use std::alloc::Global;

/// The status of an answer that the back caused (RFC 9110, section 15.6.3).
const BAD_GATEWAY: u16 = 502;

fn word_line(alloc: Global, word: &str) -> Result<Vec<u8>, NoMemory>
    ensures { IfOk result (λ line. line.items ≡ the_word_line word.now) }
{
    let mut line = word.as_bytes().to_vec(alloc)?;
    line.push(b'\n')?;
    Ok(line)
}

// The line of a refusal.
fn line_of(alloc: Global, refusal: &MessageRefusal) -> Result<Vec<u8>, NoMemory>
    ensures { IfOk result (λ line. ToldAs (λ r. line.items ≡ refusal_line r) refusal.now) }
{
    match refusal {
        MessageRefusal::Protocol => word_line(alloc, "Protocol"),
        MessageRefusal::UnknownOperation => word_line(alloc, "UnknownOperation"),
        MessageRefusal::Unserved(path) => unserved_line(alloc, path.as_str()),
        MessageRefusal::MediaType => word_line(alloc, "MediaType"),
        MessageRefusal::UnknownError => word_line(alloc, "UnknownError"),
        MessageRefusal::Syntax(refusal) => syntax_line(alloc, *refusal),
        MessageRefusal::Fault(fault) => fault_line(alloc, fault),
        MessageRefusal::NoMemory => Err(NoMemory),
    }
}

// The status of the answer to a request that is refused so (RFC 9110, sections 15.5 and 15.6).
fn status_of(refusal: &MessageRefusal) -> u16
    ensures { RefusedAs (λ r. result ≡ refusal_status r) refusal.now }
{
    match refusal {
        MessageRefusal::Protocol => 400,
        MessageRefusal::UnknownOperation => 404,
        MessageRefusal::Unserved(_) => 501,
        MessageRefusal::MediaType => 415,
        MessageRefusal::UnknownError => 400,
        MessageRefusal::Syntax(_) => 400,
        MessageRefusal::Fault(_) => 400,
        MessageRefusal::NoMemory => 400,
    }
}

// An answer behind which the session ends, or goes on.
fn closing(alloc: Global, close: bool, answer: Message) -> Result<Message, NoMemory>
    ensures { IfOk result (λ said. said ≡ closes_so close answer) }
{
    if close {
        return with_close(alloc, answer);
    }
    Ok(answer)
}

/// The answer to a request that is refused so. `close` says whether the session ends behind it.
///
/// # Errors
///
/// `NoMemory`, also where the refusal is that.
pub fn answer_of(alloc: Global, refusal: &MessageRefusal, close: bool) -> Result<Message, NoMemory>
    ensures { IfOk result (λ answer. AnswersRefusal refusal.now close answer) }
{
    let answer = refused_answer(alloc, refusal)?;
    let closed = closing(alloc, close, answer)?;
    Ok(closed)
}

// The answer to a request that is refused so, whether the session ends behind it or not.
pub(crate) fn refused_answer(alloc: Global, refusal: &MessageRefusal) -> Result<Message, NoMemory>
    ensures { IfOk result (λ answer. (r : Refusal) × IsSaid refusal.now r × (answer ≡ refusal_answer r)) }
{
    let line = line_of(alloc, refusal)?;
    let answer = line_answer(alloc, status_of(refusal), line)?;
    Ok(answer)
}

/// The answer to a request where the back's answer to it is refused so.
pub(crate) fn back_refused_answer(
    alloc: Global,
    refusal: &MessageRefusal,
) -> Result<Message, NoMemory>
    ensures { IfOk result (λ answer. (r : Refusal) × IsSaid refusal.now r × (answer ≡ back_refusal_answer r)) }
{
    let line = line_of(alloc, refusal)?;
    let told = back_line(alloc, line.as_slice())?;
    let answer = line_answer(alloc, BAD_GATEWAY, told)?;
    Ok(answer)
}

/// The answer to bytes that are no request. Behind it the session ends.
///
/// # Errors
///
/// `NoMemory`.
pub fn answer_of_framing(alloc: Global, refusal: HttpRefusal) -> Result<Message, NoMemory>
    ensures { IfOk result (λ answer. answer ≡ the_closing (the_framing_answer refusal)) }
{
    let answer = framing_answer(alloc, refusal)?;
    with_close(alloc, answer)
}
