// Messages read from a source, by pieces and by the whole.
ghost use Rattle.std.specs.Prelude.{◌≡◌, ◌≤◌, length, take, drop, OnOk, IfOk, IfSome, IsErrOf};
ghost use Rattle.std.specs.Io.KnownBytes.{prepend_known};
ghost use Rattle.sm_io.specs.Causes.{HasCause};
ghost use Rattle.sm_io.specs.Reading.{LosesPrefix};
ghost use Rattle.sm_http.specs.declared.message.BodyLeft.TheVariants.{Known};
ghost use Rattle.sm_http.specs.Limits.{head_limit};
ghost use Rattle.sm_http.specs.Calls.{ReadsAHead, BeginsWithin, DecidesHead, IsWithinLimit, ReadsAMessage};
ghost use Rattle.sm_http.specs.steps.Passing.{TakesBody};

use crate::HttpRefusal;
use crate::held::{Held, Unfilled};
use crate::limits::{HEAD_LIMIT, PIECE_LIMIT};
use crate::look::{fill_line, look};
use crate::message::{BodyLeft, Head, Message, MessageSide};
use crate::piece::next_piece;
use sm_io::Source;
use sm_tree::Bytes;
use std::alloc::{AllocError, Global};

/// The next head, and the body that begins behind it. None exactly where no byte is left.
/// After `ReadFault` the bytes that were held and taken are nothing or a head that hasn't ended. The source is asked for nothing where
/// the bytes held have the whole head, or are refused.
pub fn read_head<S: Source>(
    alloc: Global,
    source: &mut S,
    held: &mut Held,
    side: MessageSide,
) -> Result<Option<(Head, BodyLeft)>, HttpRefusal>
    ensures bytes { ReadsAHead side (prepend_known held.old (S.left source.old)) (prepend_known held.new (S.left source.new))
        (S.left source.new) result }
    ensures within { BeginsWithin result }
    ensures few { length held.new ≤ head_limit }
    ensures taken { LosesPrefix (S.left source.old) (S.left source.new) }
    ensures unasked { DecidesHead side held.old → source.new ≡ source.old }
    ensures later { S.faults source.old ≤ S.faults source.new }
    ensures cause { HasCause (IsErrOf result HttpRefusal.ReadFault) (S.faults source.old) (S.faults source.new) }
{
    loop {
        match look(alloc, held, side) {
            Ok(Some(found)) => return Ok(Some(found)),
            Ok(None) => {}
            Err(refusal) => return Err(refusal),
        }
        if held.as_slice().len() == HEAD_LIMIT {
            return Err(HttpRefusal::HeadTooLarge);
        }
        match fill_line(source, held) {
            Ok(0) => {
                return if held.len() == 0 {
                    Ok(None)
                } else {
                    Err(HttpRefusal::Ended)
                };
            }
            Ok(_) => {}
            Err(Unfilled::Failed) => {
                return match look(alloc, held, side) {
                    Ok(Some(found)) => Ok(Some(found)),
                    Ok(None) => Err(HttpRefusal::ReadFault),
                    Err(refusal) => Err(refusal),
                };
            }
            Err(Unfilled::NoMemory) => return Err(HttpRefusal::NoMemory),
        }
    }
}

// The rest of a body, whole. Memory grows with what came, and never by what a head claims.
fn read_body<S: Source>(
    alloc: Global,
    source: &mut S,
    held: &mut Held,
    begun: BodyLeft,
) -> Result<Vec<u8>, HttpRefusal>
    requires { IsWithinLimit begun }
    ensures bytes { TakesBody begun (prepend_known held.old (S.left source.old)) (prepend_known held.new (S.left source.new))
        (S.left source.new) result }
    ensures few { length held.new ≤ head_limit }
    ensures taken { LosesPrefix (S.left source.old) (S.left source.new) }
    ensures later { S.faults source.old ≤ S.faults source.new }
    ensures cause { HasCause (IsErrOf result HttpRefusal.ReadFault) (S.faults source.old) (S.faults source.new) }
{
    let mut body = Vec::new(alloc);
    let mut left = begun;
    let mut buf = [0; PIECE_LIMIT];
    loop {
        let count = match next_piece(source, held, &mut left, &mut buf) {
            Ok(count) => count,
            Err(refusal) => return Err(refusal),
        };
        if count == 0 {
            return Ok(body);
        }
        match body.extend_from_slice(&buf[..count]) {
            Ok(()) => {}
            Err(AllocError) => return Err(HttpRefusal::NoMemory),
        }
    }
}

// How many bytes a body has, where all of them are held.
fn come_whole(left: BodyLeft, held: &Held) -> Option<usize>
    ensures { IfSome result (λ count. (left ≡ Known count) × (count ≤ length held.now)) }
{
    match left {
        BodyLeft::Known(count) => {
            if count > held.len() {
                return None;
            }
            Some(count as usize)
        }
        _ => None,
    }
}

// The first bytes held, so many, which are then used.
fn take_held(alloc: Global, held: &mut Held, count: usize) -> Result<Vec<u8>, AllocError>
    requires { count ≤ length held.old }
    ensures bytes { IfOk result (λ bytes. bytes.items ≡ take count held.old) }
    ensures used { OnOk result (held.new ≡ drop count held.old) }
    ensures few { length held.new ≤ head_limit }
{
    let bytes = held.as_slice()[..count].to_vec(alloc)?;
    held.advance(count);
    Ok(bytes)
}

/// The next message. None exactly where no byte is left. A body that has come with its head is copied once.
/// After `ReadFault` the bytes that were held and taken are nothing or a message that hasn't ended.
pub fn read_message<S: Source>(
    alloc: Global,
    source: &mut S,
    held: &mut Held,
    side: MessageSide,
) -> Result<Option<Message>, HttpRefusal>
    ensures bytes { ReadsAMessage side (prepend_known held.old (S.left source.old)) (prepend_known held.new (S.left source.new))
        (S.left source.new) result }
    ensures few { length held.new ≤ head_limit }
    ensures taken { LosesPrefix (S.left source.old) (S.left source.new) }
    ensures later { S.faults source.old ≤ S.faults source.new }
    ensures cause { HasCause (IsErrOf result HttpRefusal.ReadFault) (S.faults source.old) (S.faults source.new) }
{
    let found = match read_head(alloc, source, held, side) {
        Ok(found) => found,
        Err(refusal) => return Err(refusal),
    };
    let Some((head, left)) = found else {
        return Ok(None);
    };
    if let Some(count) = come_whole(left, held) {
        return match take_held(alloc, held, count) {
            Ok(body) => Ok(Some(Message {
                head,
                body: Bytes::new(body),
            })),
            Err(AllocError) => Err(HttpRefusal::NoMemory),
        };
    }
    match read_body(alloc, source, held, left) {
        Ok(body) => Ok(Some(Message {
            head,
            body: Bytes::new(body),
        })),
        Err(refusal) => Err(refusal),
    }
}
