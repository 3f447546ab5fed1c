// What the bytes so far show of a head.
ghost use Rattle.std.specs.Prelude.{◌≡◌, ◌≤◌, length, IfOk};
ghost use Rattle.sm_http.specs.Limits.{head_limit};
ghost use Rattle.sm_http.specs.steps.Finding.{FindsHead};
ghost use Rattle.sm_http.specs.steps.Seeing.{FindsAny, SeesHead};

use crate::HttpRefusal;
use crate::body_fields::judge;
use crate::first_line::has_first_line;
use crate::head::{HeadFound, Unfound, request_head, response_head};
use crate::limits::{FIELD_ROOM, MOST_FIELDS};
use crate::message::{BodyLeft, MessageSide};
use httparse::{EMPTY_HEADER, Header};
use std::alloc::{AllocError, Global};

/// What the bytes so far show of a head that isn't refused.
#[derive(Drop)]
pub enum SeenHead {
    /// A whole head, and the body that begins behind it.
    Whole(HeadFound, BodyLeft),
    /// A part of one, or nothing.
    Part,
}

// The head at the start of the bytes, with room for some fields.
fn head_in<'b>(
    alloc: Global,
    side: MessageSide,
    bytes: &'b [u8],
    room: &mut [Header<'b>],
) -> Result<HeadFound, Unfound>
    ensures { FindsHead side (length room.old) bytes.now result }
{
    match side {
        MessageSide::Request => request_head(alloc, bytes, room),
        MessageSide::Response => response_head(alloc, bytes, room),
    }
}

// The head at the start of the bytes, however many fields it has.
fn any_head(alloc: Global, side: MessageSide, bytes: &[u8]) -> Result<HeadFound, Unfound>
    requires { length bytes.now ≤ head_limit }
    ensures { FindsAny side bytes.now result }
{
    let mut room = match vec_of_headers(alloc) {
        Ok(room) => room,
        Err(AllocError) => return Err(Unfound::NoMemory),
    };
    match head_in(alloc, side, bytes, room.as_mut_slice()) {
        Ok(found) => Ok(found),
        Err(Unfound::Part) => Err(Unfound::Part),
        Err(Unfound::Never) => Err(Unfound::Never),
        Err(Unfound::TooMany) => unreachable!(),
        Err(Unfound::NoMemory) => Err(Unfound::NoMemory),
    }
}

// Room for as many fields as the bytes of a head can hold.
fn vec_of_headers<'b>(alloc: Global) -> Result<Vec<Header<'b>>, AllocError>
    ensures { IfOk result (λ room. length room.items ≡ 5500) }
{
    let mut room = Vec::new(alloc);
    room.resize(FIELD_ROOM, EMPTY_HEADER)?;
    Ok(room)
}

// The head at the start of the bytes. One of few fields takes no memory but its own.
fn find_head(alloc: Global, side: MessageSide, bytes: &[u8]) -> Result<HeadFound, Unfound>
    requires { length bytes.now ≤ head_limit }
    ensures { FindsAny side bytes.now result }
{
    let mut room = [EMPTY_HEADER; MOST_FIELDS];
    match head_in(alloc, side, bytes, &mut room) {
        Ok(found) => Ok(found),
        Err(Unfound::Part) => Err(Unfound::Part),
        Err(Unfound::Never) => Err(Unfound::Never),
        Err(Unfound::TooMany) => any_head(alloc, side, bytes),
        Err(Unfound::NoMemory) => Err(Unfound::NoMemory),
    }
}

/// What the bytes so far show of a head, or why it is refused. httparse is asked only once the first line has ended.
pub fn see_head(alloc: Global, side: MessageSide, bytes: &[u8]) -> Result<SeenHead, HttpRefusal>
    requires { length bytes.now ≤ head_limit }
    ensures { SeesHead side bytes.now result }
{
    if !has_first_line(bytes) {
        return Ok(SeenHead::Part);
    }
    match find_head(alloc, side, bytes) {
        Ok(found) => match judge(found.minor, &found.head) {
            Ok(left) => Ok(SeenHead::Whole(found, left)),
            Err(refusal) => Err(refusal),
        },
        Err(Unfound::Part) => Ok(SeenHead::Part),
        Err(Unfound::Never) => Err(HttpRefusal::Head),
        Err(Unfound::TooMany) => unreachable!(),
        Err(Unfound::NoMemory) => Err(HttpRefusal::NoMemory),
    }
}
