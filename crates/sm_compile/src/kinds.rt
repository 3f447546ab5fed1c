// Which kinds of shapes have values, and what may stand where.
ghost use Rattle.std.specs.Prelude.{◌≡◌};
ghost use Rattle.sm_compile.specs.Kinds as kinds;

use sm_model::Kind;
use sm_shapes::kinds::ShapeKind;

/// Whether shapes of a type have values. No memory.
pub fn has_values(kind: Kind) -> bool
    ensures { result ≡ kinds.has_values kind }
{
    match kind {
        Kind::Service | Kind::Operation | Kind::Resource => false,
        _ => true,
    }
}

/// Whether the values of a type are texts. No memory.
pub fn is_text_kind(kind: Kind) -> bool
    ensures { result ≡ kinds.is_text_kind kind }
{
    match kind {
        Kind::Text | Kind::Enum => true,
        _ => false,
    }
}

/// Whether the values of a type are whole numbers of at most 64 bits. No memory.
pub fn is_whole_kind(kind: Kind) -> bool
    ensures { result ≡ kinds.is_whole_kind kind }
{
    match kind {
        Kind::Byte | Kind::Short | Kind::Integer | Kind::IntEnum | Kind::Long => true,
        _ => false,
    }
}

/// Whether the values of a type have a length. No memory.
pub fn has_length(kind: Kind) -> bool
    ensures { result ≡ kinds.has_length kind }
{
    match kind {
        Kind::Text | Kind::Enum | Kind::Blob | Kind::List | Kind::Map => true,
        _ => false,
    }
}

/// Whether values stand at the members of a type.
pub(crate) fn has_value_members(kind: Kind) -> bool
    ensures { result ≡ kinds.has_value_members kind }
{
    match kind {
        Kind::List | Kind::Map | Kind::Structure | Kind::Union => true,
        _ => false,
    }
}

/// Whether the member of a shape of a type may target a shape of this one, which may be the prelude's unit. No memory.
pub fn may_target(home: Kind, unit: bool, target: Kind) -> bool
    ensures { result ≡ kinds.may_target home unit target }
{
    match home {
        Kind::Enum | Kind::IntEnum => unit,
        Kind::Union => has_values(target),
        _ => has_values(target) && !unit,
    }
}

/// The kind that a table has for a type. No memory.
pub fn table_kind(kind: Kind) -> ShapeKind
    ensures { result ≡ kinds.table_kind kind }
{
    match kind {
        Kind::Blob => ShapeKind::Blob,
        Kind::Boolean => ShapeKind::Boolean,
        Kind::Text => ShapeKind::Text,
        Kind::Enum => ShapeKind::Enum,
        Kind::Byte => ShapeKind::Byte,
        Kind::Short => ShapeKind::Short,
        Kind::Integer => ShapeKind::Integer,
        Kind::IntEnum => ShapeKind::IntEnum,
        Kind::Long => ShapeKind::Long,
        Kind::Timestamp => ShapeKind::Timestamp,
        Kind::List => ShapeKind::List,
        Kind::Map => ShapeKind::Map,
        Kind::Structure => ShapeKind::Structure,
        Kind::Union => ShapeKind::Union,
        _ => ShapeKind::LeftOut,
    }
}
