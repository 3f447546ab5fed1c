// Where the identifiers of a shape id end in its text, by one pass over the bytes.
ghost use Rattle.std.specs.Prelude.{◌≡◌, ◌==◌, ◌≤◌, if◌then◌else◌, length};
ghost use Rattle.std.specs.Char.{is_ascii_alphabetic, is_ascii_alphanumeric};
ghost use Rattle.sm_ids.specs.Identifier.{is_identifier_byte};
ghost use Rattle.sm_ids.specs.steps.Ahead.{is_underscore, TakesIdentifier, TakesNamespace};
ghost use Rattle.sm_ids.specs.steps.Parts.{TakesId};

use sm_bytes::{ByteClass, run_len};

/// Where the first two parts of an id end in its text.
#[derive(Debug, Clone, Copy)]
pub(crate) struct Ends {
    /// The end of the namespace, before the `#`.
    pub namespace: usize,
    /// The end of the name: the end of the text, or before a member's `$`.
    pub name: usize,
}

struct Underscores;

impl ByteClass for Underscores {
    ghost holds = { is_underscore };

    fn has(byte: u8) -> bool {
        byte == b'_'
    }
}

// Letters, digits and underscores.
struct IdentifierBytes;

impl ByteClass for IdentifierBytes {
    ghost holds = { is_identifier_byte };

    fn has(byte: u8) -> bool {
        byte.is_ascii_alphanumeric() || byte == b'_'
    }
}

// Whether an identifier goes on with this byte behind the underscores that begin it.
fn opens(byte: u8, underscores: usize) -> bool
    ensures { result ≡ (if underscores == 0 then is_ascii_alphabetic byte else is_ascii_alphanumeric byte) }
{
    if underscores == 0 {
        byte.is_ascii_alphabetic()
    } else {
        byte.is_ascii_alphanumeric()
    }
}

/// Where the identifier ends that stands from a place on, or up to where one may have begun there.
pub(crate) fn identifier_end(bytes: &[u8], from: usize) -> Result<usize, usize>
    requires { from ≤ length bytes.now }
    ensures { TakesIdentifier bytes.now from result }
{
    let count = run_len::<Underscores>(&bytes[from..]);
    let start = from + count;
    if start < bytes.len() && opens(bytes[start], count) {
        Ok(start + 1 + run_len::<IdentifierBytes>(&bytes[start + 1..]))
    } else {
        Err(start)
    }
}

/// Where the namespace at the start ends, before a `#`, or where the bytes break.
fn namespace_end(bytes: &[u8]) -> Result<usize, usize>
    ensures { TakesNamespace bytes.now result }
{
    let mut from = 0;
    'identifiers: loop {
        let end = identifier_end(bytes, from)?;
        if end == bytes.len() {
            return Err(end);
        }
        if bytes[end] == b'#' {
            return Ok(end);
        }
        if bytes[end] != b'.' {
            return Err(end);
        }
        from = end + 1;
    }
}

/// Where the parts of the id end that the bytes spell, or how many leading bytes begin some id's text.
pub(crate) fn scan(bytes: &[u8]) -> Result<Ends, usize>
    ensures { TakesId bytes.now result }
{
    let namespace = namespace_end(bytes)?;
    let name = identifier_end(bytes, namespace + 1)?;
    if name == bytes.len() {
        return Ok(Ends { namespace, name });
    }
    if bytes[name] != b'$' {
        return Err(name);
    }
    let end = identifier_end(bytes, name + 1)?;
    if end < bytes.len() {
        return Err(end);
    }
    Ok(Ends { namespace, name })
}
