// Whether the first line of a head has ended.
ghost use Rattle.std.specs.Prelude.{◌≡◌};
ghost use Rattle.sm_http.specs.Heads.{has_line_feed, has_first_line};

use sm_bytes::{ByteClass, run_len};

// CR and LF, the bytes of empty lines.
struct LineBytes;

impl ByteClass for LineBytes {
    ghost use Rattle.sm_http.specs.Heads.{is_line_byte};

    ghost holds = { is_line_byte };

    fn has(byte: u8) -> bool {
        byte == b'\r' || byte == b'\n'
    }
}

/// Whether an LF stands in the bytes.
pub fn has_line_feed(bytes: &[u8]) -> bool
    ensures { result ≡ has_line_feed bytes.now }
{
    bytes.iter().any(|byte| *byte == b'\n')
}

/// Whether an LF stands behind a byte other than CR and LF.
pub fn has_first_line(bytes: &[u8]) -> bool
    ensures { result ≡ has_first_line bytes.now }
{
    has_line_feed(&bytes[run_len::<LineBytes>(bytes)..])
}
