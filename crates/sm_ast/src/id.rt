// Texts that must be ids, and names that must be identifiers.
ghost use Rattle.std.specs.Prelude.{◌≡◌};
ghost use Rattle.sm_ids.specs.Identifier as names;
ghost use Rattle.sm_ast.specs.Ids as ids;

use sm_ids::{ShapeIdRef, is_identifier};

/// Whether the text is a shape id. No memory.
pub(crate) fn is_shape_id(text: &str) -> bool
    ensures { result ≡ ids.is_id text.now }
{
    match ShapeIdRef::parse(text) {
        Ok(_) => true,
        Err(_) => false,
    }
}

/// Whether the text is an identifier. No memory.
pub(crate) fn is_name(text: &str) -> bool
    ensures { result ≡ names.is_identifier text.now }
{
    is_identifier(text)
}
