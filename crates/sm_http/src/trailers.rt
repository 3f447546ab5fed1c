// The trailer lines behind a chunked body's last line, which are passed over.
ghost use Rattle.std.specs.Prelude.{◌≤◌};
ghost use Rattle.sm_http.specs.Limits.{trailer_limit};
ghost use Rattle.sm_http.specs.steps.Trailers.{SeesTrailer, SeesTrailers};

use crate::limits::TRAILER_LIMIT;
use crate::line::{SeenLine, see_line};

/// What the bytes so far show of a trailer line, or of the empty line.
pub enum SeenTrailer {
    /// The empty line.
    Last,
    /// A trailer line of so many bytes with its line end.
    Line(usize),
    /// A part of one.
    Part,
    /// No bytes can follow that end the trailers.
    Never,
}

/// What the bytes so far show of all trailer lines and the empty line.
pub enum SeenTrailers {
    /// All of them, so many bytes.
    Whole(usize),
    /// A part of them, or nothing.
    Part,
    /// No bytes can follow that end them.
    Never,
}

// The trailer line at the start of the bytes, behind others of so many bytes.
fn see_trailer(used: usize, bytes: &[u8]) -> SeenTrailer
    requires { used ≤ trailer_limit }
    ensures { SeesTrailer used bytes.now result }
{
    match see_line(bytes) {
        SeenLine::Whole(len) => {
            if len == 0 {
                return SeenTrailer::Last;
            }
            if len + 2 > TRAILER_LIMIT - used {
                return SeenTrailer::Never;
            }
            SeenTrailer::Line(len + 2)
        }
        SeenLine::Part(len) => {
            if len == 0 {
                return SeenTrailer::Part;
            }
            if len + 2 > TRAILER_LIMIT - used {
                return SeenTrailer::Never;
            }
            SeenTrailer::Part
        }
        SeenLine::Never => SeenTrailer::Never,
    }
}

/// The trailer lines at the start of the bytes, and the empty line behind them.
pub fn see_trailers(bytes: &[u8]) -> SeenTrailers
    ensures { SeesTrailers bytes.now result }
{
    let mut at = 0;
    loop {
        match see_trailer(at, &bytes[at..]) {
            SeenTrailer::Last => return SeenTrailers::Whole(at + 2),
            SeenTrailer::Line(len) => at += len,
            SeenTrailer::Part => return SeenTrailers::Part,
            SeenTrailer::Never => return SeenTrailers::Never,
        }
    }
}
