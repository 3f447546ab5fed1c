// Whitespace between tokens (RFC 8259, section 2).
use sm_bytes::ByteClass;

// A blank, a tab, a line feed or a carriage return.
pub(crate) struct Whitespace;

impl ByteClass for Whitespace {
    ghost use Rattle.sm_json.specs.Strings.{is_whitespace};

    ghost holds = { is_whitespace };

    #[inline(always)]
    fn has(byte: u8) -> bool {
        matches!(byte, b' ' | b'\t' | b'\n' | b'\r')
    }
}
