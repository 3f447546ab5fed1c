// What a head says of its message, whatever the protocol (RFC 9110, sections 8.3, 8.4 and 15).
ghost use Rattle.std.specs.Prelude.{◌≡◌};
ghost use Rattle.std.specs.Option.{option_map};
ghost use Rattle.sm_messages.specs.Heads.{bare_type, has_type, is_empty, is_plain, is_right_type, is_success};

use sm_bytes::{ByteClass, run_len};
use sm_http::{Head, Start, folds_to, trim};

// All bytes but the semicolon before a parameter.
struct TypeBytes;

impl ByteClass for TypeBytes {
    ghost use Rattle.std.specs.Prelude.{not};
    ghost use Rattle.sm_ids.specs.TextParts.{is_byte};
    ghost use Rattle.sm_messages.specs.Heads.{semicolon};

    ghost holds = { λ c. not (is_byte semicolon c) };

    fn has(byte: u8) -> bool {
        byte != b';'
    }
}

/// Whether the body is sent as it is: each `content-encoding` is `identity`, in whichever case. No memory.
pub fn is_plain(head: &Head) -> bool
    ensures { result ≡ is_plain head.now }
{
    for field in head.fields.as_slice() {
        if folds_to(field.name.as_str().as_bytes(), b"content-encoding")
            && !folds_to(field.value.as_slice(), b"identity")
        {
            return false;
        }
    }
    true
}

// A media type without its parameters, and without blanks around it.
fn bare_type(value: &[u8]) -> &[u8]
    ensures { result.now ≡ bare_type value.now }
{
    trim(&value[..run_len::<TypeBytes>(value)])
}

/// Whether there is one `content-type`, and it is this one, in whichever case and whatever its parameters. No memory.
pub fn has_type(head: &Head, wanted: &str) -> bool
    ensures { result ≡ has_type wanted.now head.now }
{
    match head.fields.only("content-type") {
        Some(value) => folds_to(bare_type(value), wanted.as_bytes()),
        None => false,
    }
}

/// Whether the content type is right for a body, which may be empty: it is this one, if one is wanted. That of an empty body isn't looked
/// at. No memory.
pub fn is_right_type(head: &Head, wanted: Option<&str>, empty: bool) -> bool
    ensures { result ≡ is_right_type (option_map (λ text. text.now) wanted.entry) empty head.now }
{
    if empty {
        return true;
    }
    match wanted {
        Some(wanted) => has_type(head, wanted),
        None => true,
    }
}

/// Whether the status is that of an output: another one is that of an error. No memory.
pub fn is_success(start: &Start) -> bool
    ensures { result ≡ is_success start.now }
{
    match start {
        Start::Request { .. } => false,
        Start::Response { status } => 200 <= *status && *status <= 299,
    }
}

/// Whether a body has no bytes. No memory.
pub fn is_empty(body: &[u8]) -> bool
    ensures { result ≡ is_empty body.now }
{
    match body {
        [] => true,
        _ => false,
    }
}
