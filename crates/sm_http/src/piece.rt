// The data of a body, in pieces.
ghost use Rattle.std.specs.Prelude.{◌≡◌, ◌+◌, ◌<◌, ◌≤◌, length, OnOk, IfOk, IsErrOf};
ghost use Rattle.std.specs.Io.KnownBytes.{prepend_known};
ghost use Rattle.sm_io.specs.Causes.{HasCause};
ghost use Rattle.sm_io.specs.Reading.{LosesPrefix};
ghost use Rattle.sm_http.specs.Limits.{head_limit};
ghost use Rattle.sm_http.specs.Calls.{IsWithinLimit, data_room, DecidesBody, ReadsAPiece};
ghost use Rattle.sm_http.specs.steps.Passing.{lines_before, Gives, Passes, GivesBody};

use crate::HttpRefusal;
use crate::held::{Held, Unfilled};
use crate::limits::PIECE_LIMIT;
use crate::message::BodyLeft;
use crate::place::{SeenPlace, see_place};
use sm_io::{Failed, Source};

// Goes to the next place in a body, where lines come next; else stays.
fn pass_place<S: Source>(
    source: &mut S,
    held: &mut Held,
    left: &mut BodyLeft,
) -> Result<(), HttpRefusal>
    requires { IsWithinLimit left.old }
    ensures bytes { Passes left.old left.new (prepend_known held.old (S.left source.old)) (prepend_known held.new (S.left source.new))
        (S.left source.new) result }
    ensures few { length held.new ≤ head_limit }
    ensures taken { LosesPrefix (S.left source.old) (S.left source.new) }
    ensures alone { DecidesBody left.old held.old → (source.new ≡ source.old) × OnOk result (DecidesBody left.new held.new) }
    ensures later { S.faults source.old ≤ S.faults source.new }
    ensures cause { HasCause (IsErrOf result HttpRefusal.ReadFault) (S.faults source.old) (S.faults source.new) }
{
    let place = *left;
    loop {
        match see_place(place, held.as_slice()) {
            Ok(SeenPlace::Next(used, next)) => {
                held.advance(used);
                *left = next;
                return Ok(());
            }
            Ok(SeenPlace::Part) => {}
            Err(refusal) => return Err(refusal),
        }
        match held.fill(source) {
            Ok(0) => return Err(HttpRefusal::Ended),
            Ok(_) => {}
            Err(Unfilled::Failed) => return Err(HttpRefusal::ReadFault),
            Err(Unfilled::NoMemory) => return Err(HttpRefusal::NoMemory),
        }
    }
}

// Moves data to the start of a buffer, from the bytes held first, else straight from the source.
fn take_data<S: Source>(
    source: &mut S,
    held: &mut Held,
    most: u64,
    buf: &mut [u8; 4096],
) -> Result<usize, HttpRefusal>
    requires { 0 < most }
    ensures bytes { Gives most (prepend_known held.old (S.left source.old)) (prepend_known held.new (S.left source.new))
        (S.left source.new) buf.new result }
    ensures few { length held.new ≤ head_limit }
    ensures taken { LosesPrefix (S.left source.old) (S.left source.new) }
    ensures unasked { 0 < length held.old → source.new ≡ source.old }
    ensures later { S.faults source.old ≤ S.faults source.new }
    ensures cause { HasCause (IsErrOf result HttpRefusal.ReadFault) (S.faults source.old) (S.faults source.new) }
{
    let room = most.min(PIECE_LIMIT as u64) as usize;
    let count = room.min(held.as_slice().len());
    if count > 0 {
        buf[..count].copy_from_slice(&held.as_slice()[..count]);
        held.advance(count);
        return Ok(count);
    }
    match source.take(&mut buf[..room]) {
        Ok(0) => Err(HttpRefusal::Ended),
        Ok(count) => Ok(count),
        Err(Failed) => Err(HttpRefusal::ReadFault),
    }
}

// Gives data, where no lines come before it; none is exactly the end.
fn give_data<S: Source>(
    source: &mut S,
    held: &mut Held,
    left: &mut BodyLeft,
    buf: &mut [u8; 4096],
) -> Result<usize, HttpRefusal>
    requires within { IsWithinLimit left.old }
    requires plain { lines_before left.old ≡ 0 }
    requires few { length held.old ≤ head_limit }
    ensures bytes { GivesBody left.old left.new (prepend_known held.old (S.left source.old)) (prepend_known held.new (S.left source.new))
        (S.left source.new) buf.new result }
    ensures few { length held.new ≤ head_limit }
    ensures taken { LosesPrefix (S.left source.old) (S.left source.new) }
    ensures unasked { DecidesBody left.old held.old → source.new ≡ source.old }
    ensures later { S.faults source.old ≤ S.faults source.new }
    ensures cause { HasCause (IsErrOf result HttpRefusal.ReadFault) (S.faults source.old) (S.faults source.new) }
{
    match *left {
        BodyLeft::Known(most) => {
            if most == 0 {
                *left = BodyLeft::Done;
                return Ok(0);
            }
            let count = match take_data(source, held, most, buf) {
                Ok(count) => count,
                Err(refusal) => return Err(refusal),
            };
            *left = BodyLeft::Known(most - count as u64);
            Ok(count)
        }
        BodyLeft::Data { left: most, total } => {
            let count = match take_data(source, held, most, buf) {
                Ok(count) => count,
                Err(refusal) => return Err(refusal),
            };
            let rest = most - count as u64;
            *left = BodyLeft::Data { left: rest, total };
            Ok(count)
        }
        BodyLeft::Size(_) => unreachable!(),
        BodyLeft::Done => Ok(0),
    }
}

/// The next data of a body, of which a caller knows which bytes it took.
pub(crate) fn next_piece<S: Source>(
    source: &mut S,
    held: &mut Held,
    left: &mut BodyLeft,
    buf: &mut [u8; 4096],
) -> Result<usize, HttpRefusal>
    requires { IsWithinLimit left.old }
    ensures bytes { GivesBody left.old left.new (prepend_known held.old (S.left source.old)) (prepend_known held.new (S.left source.new))
        (S.left source.new) buf.new result }
    ensures few { length held.new ≤ head_limit }
    ensures taken { LosesPrefix (S.left source.old) (S.left source.new) }
    ensures unasked { DecidesBody left.old held.old → source.new ≡ source.old }
    ensures later { S.faults source.old ≤ S.faults source.new }
    ensures cause { HasCause (IsErrOf result HttpRefusal.ReadFault) (S.faults source.old) (S.faults source.new) }
{
    match pass_place(source, held, left) {
        Ok(()) => {}
        Err(refusal) => return Err(refusal),
    }
    match pass_place(source, held, left) {
        Ok(()) => {}
        Err(refusal) => return Err(refusal),
    }
    match give_data(source, held, left, buf) {
        Ok(count) => Ok(count),
        Err(refusal) => Err(refusal),
    }
}

/// The next data of a body, at the start of the buffer, and where the body stands behind it. None exactly at the end.
/// After `ReadFault` the bytes that were held and taken are a body that hasn't ended. The source is asked for nothing where the bytes
/// held are the rest of the body, whole, or are refused.
pub fn read_piece<S: Source>(
    source: &mut S,
    held: &mut Held,
    left: &mut BodyLeft,
    buf: &mut [u8; 4096],
) -> Result<usize, HttpRefusal>
    requires { IsWithinLimit left.old }
    ensures bytes { ReadsAPiece left.old left.new (prepend_known held.old (S.left source.old))
        (prepend_known held.new (S.left source.new)) (S.left source.new) buf.new result }
    ensures within { OnOk result (IsWithinLimit left.new) }
    ensures room { IfOk result (λ count. data_room left.new + count ≤ data_room left.old) }
    ensures few { length held.new ≤ head_limit }
    ensures taken { LosesPrefix (S.left source.old) (S.left source.new) }
    ensures unasked { DecidesBody left.old held.old → source.new ≡ source.old }
    ensures later { S.faults source.old ≤ S.faults source.new }
    ensures cause { HasCause (IsErrOf result HttpRefusal.ReadFault) (S.faults source.old) (S.faults source.new) }
{
    match next_piece(source, held, left, buf) {
        Ok(count) => Ok(count),
        Err(refusal) => Err(refusal),
    }
}
