// Lines of a chunked body: texts without CR and LF, each with CR LF behind it.
ghost use Rattle.sm_http.specs.steps.Lines.{SeesLine};

use sm_bytes::{ByteClass, run_len};

// The bytes of a line's text: all but CR and LF.
struct TextBytes;

impl ByteClass for TextBytes {
    ghost use Rattle.httparse.specs.Grammar.{is_extension_byte};

    ghost holds = { is_extension_byte };

    fn has(byte: u8) -> bool {
        !(byte == b'\r' || byte == b'\n')
    }
}

/// What the bytes so far show of a line. Each count is that of the text's bytes.
pub enum SeenLine {
    /// A text and its line end.
    Whole(usize),
    /// A text that may go on, or the CR behind it.
    Part(usize),
    /// No bytes can follow that make a line.
    Never,
}

/// The line at the start of the bytes.
pub fn see_line(bytes: &[u8]) -> SeenLine
    ensures { SeesLine bytes.now result }
{
    let len = run_len::<TextBytes>(bytes);
    if len == bytes.len() {
        return SeenLine::Part(len);
    }
    if bytes[len] != b'\r' {
        return SeenLine::Never;
    }
    if len + 1 == bytes.len() {
        return SeenLine::Part(len);
    }
    if bytes[len + 1] != b'\n' {
        return SeenLine::Never;
    }
    SeenLine::Whole(len)
}
