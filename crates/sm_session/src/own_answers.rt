// The answers that a session gives by itself, where bytes are no message.
ghost use Rattle.std.specs.Prelude.{◌≡◌, IfOk};
ghost use Rattle.sm_session.specs.OwnAnswers.{text_field as the_text_field, length_field as the_length_field, line_answer as the_line_answer};
ghost use Rattle.sm_session.specs.OwnAnswers.{framing_word as the_framing_word, framing_line as the_framing_line};
ghost use Rattle.sm_session.specs.OwnAnswers.{framing_status as the_framing_status, framing_answer as the_framing_answer};
ghost use Rattle.sm_session.specs.OwnAnswers.{back_line as the_back_line, back_answer as the_back_answer};

use itoa::Buffer;
use sm_http::{Field, FieldList, Head, HttpRefusal, Message, Start};
use sm_tree::{Bytes, NoMemory, Text};
use std::alloc::Global;

/// The status of an answer that the back caused (RFC 9110, section 15.6.3).
const BAD_GATEWAY: u16 = 502;

fn text_field(alloc: Global) -> Result<Field, NoMemory>
    ensures { IfOk result (λ field. field ≡ the_text_field) }
{
    let name = Text::copy(alloc, "content-type")?;
    let value = Bytes::new(b"text/plain".to_vec(alloc)?);
    Ok(Field { name, value })
}

fn length_field(alloc: Global, count: usize) -> Result<Field, NoMemory>
    ensures { IfOk result (λ field. field ≡ the_length_field count) }
{
    let name = Text::copy(alloc, "content-length")?;
    let mut digits = Buffer::new();
    let value = Bytes::new(digits.format(count).as_bytes().to_vec(alloc)?);
    Ok(Field { name, value })
}

/// An answer with one line as its body.
///
/// # Errors
///
/// `NoMemory`.
pub fn line_answer(alloc: Global, status: u16, line: Vec<u8>) -> Result<Message, NoMemory>
    ensures { IfOk result (λ answer. answer ≡ the_line_answer status line.items) }
{
    let mut fields = Vec::new(alloc);
    fields.push(text_field(alloc)?)?;
    fields.push(length_field(alloc, line.len())?)?;
    let head = Head {
        start: Start::Response { status },
        fields: FieldList::new(fields),
    };
    Ok(Message {
        head,
        body: Bytes::new(line),
    })
}

fn framing_word(why: HttpRefusal) -> &'static str
    ensures { result.now ≡ the_framing_word why }
{
    match why {
        HttpRefusal::Head => "Head",
        HttpRefusal::HeadTooLarge => "HeadTooLarge",
        HttpRefusal::Coding => "Coding",
        HttpRefusal::Length => "Length",
        HttpRefusal::TooLong => "TooLong",
        HttpRefusal::Chunk => "Chunk",
        HttpRefusal::Ended => "Ended",
        HttpRefusal::ReadFault => "ReadFault",
        HttpRefusal::NoMemory => "NoMemory",
    }
}

fn framing_line(alloc: Global, why: HttpRefusal) -> Result<Vec<u8>, NoMemory>
    ensures { IfOk result (λ line. line.items ≡ the_framing_line why) }
{
    let mut line = framing_word(why).as_bytes().to_vec(alloc)?;
    line.push(b'\n')?;
    Ok(line)
}

fn framing_status(why: HttpRefusal) -> u16
    ensures { result ≡ the_framing_status why }
{
    match why {
        HttpRefusal::Head => 400,
        HttpRefusal::HeadTooLarge => 431,
        HttpRefusal::Coding => 400,
        HttpRefusal::Length => 400,
        HttpRefusal::TooLong => 413,
        HttpRefusal::Chunk => 400,
        HttpRefusal::Ended => 400,
        HttpRefusal::ReadFault => 400,
        HttpRefusal::NoMemory => 400,
    }
}

/// The answer to bytes of the front that are no request.
///
/// # Errors
///
/// `NoMemory`.
pub fn framing_answer(alloc: Global, why: HttpRefusal) -> Result<Message, NoMemory>
    ensures { IfOk result (λ answer. answer ≡ the_framing_answer why) }
{
    let line = framing_line(alloc, why)?;
    line_answer(alloc, framing_status(why), line)
}

/// A line that tells of the back.
///
/// # Errors
///
/// `NoMemory`.
pub fn back_line(alloc: Global, line: &[u8]) -> Result<Vec<u8>, NoMemory>
    ensures { IfOk result (λ told. told.items ≡ the_back_line line.now) }
{
    let mut told = b"back ".to_vec(alloc)?;
    told.extend_from_slice(line)?;
    Ok(told)
}

/// The answer to a request where the bytes of the back are no response.
///
/// # Errors
///
/// `NoMemory`.
pub fn back_answer(alloc: Global, why: HttpRefusal) -> Result<Message, NoMemory>
    ensures { IfOk result (λ answer. answer ≡ the_back_answer why) }
{
    let line = framing_line(alloc, why)?;
    let told = back_line(alloc, line.as_slice())?;
    line_answer(alloc, BAD_GATEWAY, told)
}
