// Whether a text is an identifier or a namespace by itself. Who puts an id together from parts asks here.
ghost use Rattle.std.specs.Prelude.{◌↔◌, IsTrue};
ghost use Rattle.sm_ids.specs.Identifier.{IsIdentifier, IsNamespace};

use crate::scan::identifier_end;

/// Whether a text is an identifier (Smithy 2.0, "Shape ID"): a letter, or underscores and a letter or a digit,
/// and then letters, digits and underscores. No memory.
pub fn is_identifier(text: &str) -> bool
    ensures { IsTrue result ↔ IsIdentifier text.now }
{
    match identifier_end(text.as_bytes(), 0) {
        Ok(end) => end == text.len(),
        Err(_) => false,
    }
}

/// Whether a text is a namespace: identifiers joined by full stops. No memory.
pub fn is_namespace(text: &str) -> bool
    ensures { IsTrue result ↔ IsNamespace text.now }
{
    text.split('.').all(is_identifier)
}
