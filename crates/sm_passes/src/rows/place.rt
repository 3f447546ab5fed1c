// Where a row of the table of traits lets a trait stand.
ghost use Rattle.std.specs.Prelude.{◌≡◌, true};
ghost use Rattle.sm_model.specs.declared.kind.Kind.TheVariants as model;
ghost use Rattle.sm_rules.specs.TraitRows as table;
ghost use Rattle.sm_passes.specs.Places.{allows, is_behind, is_member_of, is_member_to, is_shape_of, types_said};

use crate::rows::kinds::{Types, is_kind, is_of};
use sm_model::Kind;

/// Places of a trait.
#[derive(Debug, Clone, Copy, PartialEq, Eq, Drop)]
pub enum RowPlace {
    /// Any shape or member.
    Everywhere,
    /// Any shape, and no member.
    AnyShape,
    /// Members of structures.
    StructureMember,
    /// The prelude's unit.
    Unit,
    /// Members of structures, and shapes of values that may be defaults.
    Default,
    /// Members of shapes of these types.
    MemberOf(Types),
    /// Shapes of these types.
    Of(Types),
    /// Shapes of these types, and members that target them.
    With(Types),
}

/// What stands behind a member's target.
#[derive(Debug, Clone, Copy, PartialEq, Eq, Drop)]
pub enum Behind {
    /// The graph hasn't it.
    Nothing,
    /// A shape of this type.
    Shape(Kind),
    /// A member.
    Member,
}

/// Where a trait stands.
#[derive(Debug, Clone, Copy, PartialEq, Eq, Drop)]
pub enum Stand {
    /// At a shape of this type.
    Shape(Kind),
    /// At a member of a shape of this type, with this behind its target.
    Member(Kind, Behind),
}

/// Whether a trait that may stand at such a place may stand there.
pub fn allows(place: RowPlace, at: Stand) -> bool
    ensures { result ≡ allows place at }
{
    match place {
        RowPlace::Everywhere => true,
        RowPlace::AnyShape => is_any_shape(at),
        RowPlace::StructureMember => is_structure_member(at),
        RowPlace::Unit => false,
        RowPlace::Default => is_structure_member(at) || is_shape_of(Types::Defaulted, at),
        RowPlace::MemberOf(types) => is_member_of(types, at),
        RowPlace::Of(types) => is_shape_of(types, at),
        RowPlace::With(types) => is_shape_of(types, at) || is_member_to(types, at),
    }
}

fn is_any_shape(at: Stand) -> bool
    ensures { result ≡ is_shape_of (λ kind. true) at }
{
    match at {
        Stand::Shape(_) => true,
        Stand::Member(_, _) => false,
    }
}

fn is_structure_member(at: Stand) -> bool
    ensures { result ≡ is_member_of (table.is_kind model.Structure) at }
{
    match at {
        Stand::Shape(_) => false,
        Stand::Member(kind, _) => is_kind(Kind::Structure, kind),
    }
}

fn is_shape_of(types: Types, at: Stand) -> bool
    ensures { result ≡ is_shape_of (types_said types) at }
{
    match at {
        Stand::Shape(kind) => is_of(types, kind),
        Stand::Member(_, _) => false,
    }
}

fn is_member_of(types: Types, at: Stand) -> bool
    ensures { result ≡ is_member_of (types_said types) at }
{
    match at {
        Stand::Shape(_) => false,
        Stand::Member(kind, _) => is_of(types, kind),
    }
}

fn is_member_to(types: Types, at: Stand) -> bool
    ensures { result ≡ is_member_to (types_said types) at }
{
    match at {
        Stand::Shape(_) => false,
        Stand::Member(_, target) => is_behind(types, target),
    }
}

fn is_behind(types: Types, target: Behind) -> bool
    ensures { result ≡ is_behind (types_said types) target }
{
    match target {
        Behind::Nothing => true,
        Behind::Shape(kind) => is_of(types, kind),
        Behind::Member => false,
    }
}
