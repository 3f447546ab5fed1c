// The next place in a body: behind the line end of a chunk, a size line, or the last line and the trailers.
ghost use Rattle.std.specs.Prelude.{◌≤◌};
ghost use Rattle.sm_http.specs.declared.message.BodyLeft.TheVariants.{Size, Data};
ghost use Rattle.sm_http.specs.Limits.{message_body_limit};
ghost use Rattle.sm_http.specs.Calls.{IsWithinLimit};
ghost use Rattle.sm_http.specs.steps.SizeLines.{ReadsSize};
ghost use Rattle.sm_http.specs.steps.Passing.{SeesPlace};

use crate::HttpRefusal;
use crate::limits::BODY_LIMIT;
use crate::message::BodyLeft;
use crate::size_line::{SeenSize, see_size};
use crate::trailers::{SeenTrailers, see_trailers};

/// What the bytes so far show of the next place in a body that isn't refused.
pub enum SeenPlace {
    /// So many bytes lead to this place.
    Next(usize, BodyLeft),
    /// More bytes are needed.
    Part,
}

// The line end behind a chunk's data.
fn see_end(total: u64, bytes: &[u8]) -> Result<SeenPlace, HttpRefusal>
    requires { total ≤ message_body_limit }
    ensures { SeesPlace (Data 0 total) bytes.now result }
{
    if bytes.len() == 0 {
        return Ok(SeenPlace::Part);
    }
    if bytes[0] != b'\r' {
        return Err(HttpRefusal::Chunk);
    }
    if bytes.len() == 1 {
        return Ok(SeenPlace::Part);
    }
    if bytes[1] != b'\n' {
        return Err(HttpRefusal::Chunk);
    }
    Ok(SeenPlace::Next(2, BodyLeft::Size(total)))
}

// The trailers behind the last line, which has so many bytes.
fn see_last(sum: u64, len: usize, bytes: &[u8]) -> Result<SeenPlace, HttpRefusal>
    requires within { sum ≤ message_body_limit }
    requires line { ReadsSize bytes.now 0 len }
    ensures { SeesPlace (Size sum) bytes.now result }
{
    match see_trailers(&bytes[len..]) {
        SeenTrailers::Whole(more) => Ok(SeenPlace::Next(len + more, BodyLeft::Done)),
        SeenTrailers::Part => Ok(SeenPlace::Part),
        SeenTrailers::Never => Err(HttpRefusal::Chunk),
    }
}

// The size line before a chunk, or the last line and the trailers.
fn see_chunk(sum: u64, bytes: &[u8]) -> Result<SeenPlace, HttpRefusal>
    requires { sum ≤ message_body_limit }
    ensures { SeesPlace (Size sum) bytes.now result }
{
    match see_size(bytes) {
        SeenSize::Whole(size, len) => {
            if size == 0 {
                return see_last(sum, len, bytes);
            }
            if size > BODY_LIMIT - sum {
                return Err(HttpRefusal::TooLong);
            }
            let total = sum + size;
            Ok(SeenPlace::Next(len, BodyLeft::Data { left: size, total }))
        }
        SeenSize::Part => Ok(SeenPlace::Part),
        SeenSize::Never => Err(HttpRefusal::Chunk),
    }
}

/// The next place, where lines come next; else the same place, by no bytes.
pub fn see_place(left: BodyLeft, bytes: &[u8]) -> Result<SeenPlace, HttpRefusal>
    requires { IsWithinLimit left }
    ensures { SeesPlace left bytes.now result }
{
    match left {
        BodyLeft::Size(sum) => see_chunk(sum, bytes),
        BodyLeft::Data { left: count, total } => {
            if count == 0 {
                return see_end(total, bytes);
            }
            Ok(SeenPlace::Next(0, BodyLeft::Data { left: count, total }))
        }
        BodyLeft::Known(count) => Ok(SeenPlace::Next(0, BodyLeft::Known(count))),
        BodyLeft::Done => Ok(SeenPlace::Next(0, BodyLeft::Done)),
    }
}
