// Looks at the bytes held for a head, and takes bytes until another look may find more.
ghost use Rattle.std.specs.Prelude.{◌<◌, ◌≤◌, length, IsErrOf};
ghost use Rattle.sm_io.specs.Causes.{HasCause};
ghost use Rattle.sm_http.specs.Limits.{head_limit};
ghost use Rattle.sm_http.specs.steps.Looking.{LooksAHead, FillsOn};

use crate::HttpRefusal;
use crate::first_line::has_line_feed;
use crate::held::{Held, Unfilled};
use crate::limits::HEAD_LIMIT;
use crate::message::{BodyLeft, Head, MessageSide};
use crate::see::{SeenHead, see_head};
use sm_io::Source;
use std::alloc::Global;

/// The head that the bytes held begin with, which are then used. None where it hasn't ended.
pub fn look(
    alloc: Global,
    held: &mut Held,
    side: MessageSide,
) -> Result<Option<(Head, BodyLeft)>, HttpRefusal>
    ensures bytes { LooksAHead side held.old held.new result }
    ensures few { length held.old ≤ head_limit }
    ensures still_few { length held.new ≤ head_limit }
{
    match see_head(alloc, side, held.as_slice()) {
        Ok(SeenHead::Whole(found, left)) => {
            held.advance(found.len);
            Ok(Some((found.head, left)))
        }
        Ok(SeenHead::Part) => Ok(None),
        Err(refusal) => Err(refusal),
    }
}

/// Takes bytes from the source until an LF has come, since a head ends with one, or the room is full, or the source ends; none
/// only at the end. Where the source fails, what came before is held.
pub fn fill_line<S: Source>(source: &mut S, held: &mut Held) -> Result<usize, Unfilled>
    requires room { length held.old < head_limit }
    ensures part { IsErrOf result Unfilled.Failed → length held.new < head_limit }
    ensures bytes { FillsOn (S.left source.old) (S.left source.new) held.old held.new result }
    ensures few { length held.new ≤ head_limit }
    ensures later { S.faults source.old ≤ S.faults source.new }
    ensures cause { HasCause (IsErrOf result Unfilled.Failed) (S.faults source.old) (S.faults source.new) }
{
    let mut total = 0;
    loop {
        let before = held.as_slice().len();
        let count = match held.fill(source) {
            Ok(0) => return Ok(total),
            Ok(count) => count,
            Err(Unfilled::Failed) => return Err(Unfilled::Failed),
            Err(Unfilled::NoMemory) => return Err(Unfilled::NoMemory),
        };
        total += count;
        let bytes = held.as_slice();
        if bytes.len() == HEAD_LIMIT || has_line_feed(&bytes[before..]) {
            return Ok(total);
        }
    }
}
