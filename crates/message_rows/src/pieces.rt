// A message read by its head and the pieces of its body.
ghost use Rattle.sm_http.specs.Calls.{IsWithinLimit};

use sm_http::{
    BodyLeft, Held, HttpRefusal, Message, MessageSide, read_head, read_message, read_piece,
};
use sm_io::Source;
use sm_tree::Bytes;
use std::alloc::Global;

/// By which calls a message is read.
#[derive(Clone, Copy, Debug, PartialEq, Eq, Drop)]
pub enum MessageWay {
    /// `read_message`.
    Whole,
    /// `read_head`, and `read_piece` up to the body's end.
    Pieces,
}

// The pieces of a body, one behind the other.
fn read_pieces<S: Source>(
    alloc: Global,
    source: &mut S,
    held: &mut Held,
    first: BodyLeft,
) -> Result<Vec<u8>, HttpRefusal>
    requires { IsWithinLimit first }
{
    let mut body = Vec::new(alloc);
    let mut left = first;
    let mut buf = [0; 4096];
    loop {
        let count = read_piece(source, held, &mut left, &mut buf)?;
        if count == 0 {
            return Ok(body);
        }
        body.extend_from_slice(&buf[..count])?;
    }
}

/// The next message, read so.
///
/// # Errors
///
/// Those of the calls that read it.
pub fn read_once<S: Source>(
    alloc: Global,
    source: &mut S,
    held: &mut Held,
    side: MessageSide,
    way: MessageWay,
) -> Result<Option<Message>, HttpRefusal> {
    if way == MessageWay::Whole {
        return read_message(alloc, source, held, side);
    }
    let Some((head, begun)) = read_head(alloc, source, held, side)? else {
        return Ok(None);
    };
    let body = read_pieces(alloc, source, held, begun)?;
    Ok(Some(Message {
        head,
        body: Bytes::new(body),
    }))
}
