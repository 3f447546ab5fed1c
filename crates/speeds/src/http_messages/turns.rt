// One message read, and one written, many times over. Each turn does the whole work anew, in memory of its own.
ghost use Rattle.std.specs.Prelude.{◌≡◌, [], IfOk, IfSome};
ghost use Rattle.sm_http.specs.Calls.{IsWithinLimit};
ghost use Rattle.sm_http.specs.Written.{written};
ghost use Rattle.speeds.specs.HttpTurns.{MessageOf};

use httparse::{EMPTY_HEADER, Request, Response, Status};
use sm_http::{
    BodyLeft, Held, HttpRefusal, Message, MessageSide, message_len, read_head, read_message,
    read_piece, write_message,
};
use sm_io::{Source, StdSource};
use sm_tree::NoMemory;
use std::alloc::{AllocError, Global};

// The message that a source's bytes begin with.
fn read_first<S: Source>(
    alloc: Global,
    source: &mut S,
    held: &mut Held,
    side: MessageSide,
) -> Result<Option<Message>, HttpRefusal>
    requires { held.old ≡ [] }
    ensures { IfSome (S.left source.old) (λ bytes. MessageOf side bytes result) }
{
    read_message(alloc, source, held, side)
}

// The message that bytes begin with. Where the turn before left nothing held, its room is used again, as a session does.
fn read_once(
    alloc: Global,
    held: &mut Held,
    bytes: &[u8],
    side: MessageSide,
) -> Result<Option<Message>, HttpRefusal>
    ensures { MessageOf side bytes.now result }
{
    let mut source = StdSource::new(bytes);
    if held.len() == 0 {
        return read_first(alloc, &mut source, held, side);
    }
    let mut fresh = Held::new(alloc);
    read_first(alloc, &mut source, &mut fresh, side)
}

/// The message that bytes begin with, read so many times, and at least once.
///
/// # Errors
///
/// Those of `read_message`.
pub fn read_times(
    alloc: Global,
    bytes: &[u8],
    side: MessageSide,
    turns: u32,
) -> Result<Option<Message>, HttpRefusal>
    ensures { MessageOf side bytes.now result }
{
    let mut held = Held::new(alloc);
    for _ in 1..turns {
        match read_once(alloc, &mut held, bytes, side) {
            Ok(_) => {}
            Err(refusal) => return Err(refusal),
        }
    }
    read_once(alloc, &mut held, bytes, side)
}

// How many bytes the pieces of a body have.
fn piece_sum<S: Source>(
    source: &mut S,
    held: &mut Held,
    begun: BodyLeft,
) -> Result<u64, HttpRefusal>
    requires { IsWithinLimit begun }
{
    let mut left = begun;
    let mut buf = [0; 4096];
    let mut sum: u64 = 0;
    loop {
        let count = read_piece(source, held, &mut left, &mut buf)?;
        if count == 0 {
            return Ok(sum);
        }
        sum = sum.saturating_add(count as u64);
    }
}

fn pieces_once(
    alloc: Global,
    held: &mut Held,
    bytes: &[u8],
    side: MessageSide,
) -> Result<u64, HttpRefusal> {
    let mut source = StdSource::new(bytes);
    match read_head(alloc, &mut source, held, side)? {
        Some((_head, begun)) => piece_sum(&mut source, held, begun),
        None => Ok(0),
    }
}

/// How many bytes the body has, read in pieces so many times. The bytes are one message.
///
/// # Errors
///
/// Those of `read_head` and `read_piece`.
pub fn pieces_times(
    alloc: Global,
    bytes: &[u8],
    side: MessageSide,
    turns: u32,
) -> Result<u64, HttpRefusal> {
    let mut held = Held::new(alloc);
    let mut sum: u64 = 0;
    for _ in 0..turns {
        sum = pieces_once(alloc, &mut held, bytes, side)?;
    }
    Ok(sum)
}

// The length of a request's head by httparse, or 0 where it has none.
fn request_head(bytes: &[u8]) -> u64 {
    let mut room = [EMPTY_HEADER; 64];
    match Request::new(&mut room).parse(bytes) {
        Ok(Status::Complete(len)) => len as u64,
        _ => 0,
    }
}

// The length of a response's head by httparse, or 0 where it has none.
fn response_head(bytes: &[u8]) -> u64 {
    let mut room = [EMPTY_HEADER; 64];
    match Response::new(&mut room).parse(bytes) {
        Ok(Status::Complete(len)) => len as u64,
        _ => 0,
    }
}

/// The length of a head by httparse, so many times together.
pub fn head_times(bytes: &[u8], side: MessageSide, turns: u32) -> u64 {
    let mut sum: u64 = 0;
    for _ in 0..turns {
        let len = match side {
            MessageSide::Request => request_head(bytes),
            MessageSide::Response => response_head(bytes),
        };
        sum = sum.saturating_add(len);
    }
    sum
}

fn write_once(alloc: Global, message: &Message) -> Result<Vec<u8>, NoMemory>
    ensures { IfOk result (λ out. out.items ≡ written message.now) }
{
    let mut out = Vec::with_capacity(alloc, message_len(message) as usize)?;
    write_message(alloc, message, &mut out)?;
    Ok(out)
}

/// The text of a message that is written so many times, and at least once.
///
/// # Errors
///
/// `NoMemory`.
pub fn write_times(alloc: Global, message: &Message, turns: u32) -> Result<Vec<u8>, NoMemory>
    ensures { IfOk result (λ out. out.items ≡ written message.now) }
{
    for _ in 1..turns {
        write_once(alloc, message)?;
    }
    write_once(alloc, message)
}

fn copy_once(alloc: Global, bytes: &[u8]) -> Result<Vec<u8>, AllocError>
    ensures { IfOk result (λ out. out.items ≡ bytes.now) }
{
    bytes.to_vec(alloc)
}

/// A copy of bytes that are copied so many times, and at least once.
///
/// # Errors
///
/// Where memory runs out.
pub fn copy_times(alloc: Global, bytes: &[u8], turns: u32) -> Result<Vec<u8>, AllocError>
    ensures { IfOk result (λ out. out.items ≡ bytes.now) }
{
    for _ in 1..turns {
        copy_once(alloc, bytes)?;
    }
    copy_once(alloc, bytes)
}
