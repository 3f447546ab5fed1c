// The layout of objects of `shapes`: their types, and the fields of each type.
ghost use Rattle.std.specs.Prelude.{◌≡◌, ◌∷◌};
ghost use Rattle.sm_model.specs.Kinds.{member_form};
ghost use Rattle.sm_tree.specs.View.{node_of};
ghost use Rattle.sm_ast.specs.Faults.{type_said};
ghost use Rattle.sm_ast.specs.declared.layout.FieldForm.TheVariants.{Traits};
ghost use Rattle.sm_ast.specs.Layout.{field_named, layout_of, member_fields, mixin_fields, shape_fields, traits_name, type_named};

use sm_model::{Kind, PropertyForm};
use sm_tree::{Tree, text_of};

/// What the `type` of an object of `shapes` says.
#[derive(Debug, Clone, Copy, PartialEq, Eq, Drop)]
pub enum ShapeType {
    /// A shape of this type.
    Defined(Kind),
    /// Traits for a shape that is defined elsewhere.
    Applied,
}

/// What stands in a field of such an object.
#[derive(Debug, Clone, Copy, PartialEq, Eq, Drop)]
pub enum FieldForm {
    /// The name of the type.
    TypeName,
    /// A member of a list or map, under its own name.
    OneMember,
    /// An object of members.
    AllMembers,
    /// A field of an operation, service or resource.
    Property(PropertyForm),
    /// A list of references to what is mixed in.
    Mixins,
    /// An object of traits.
    Traits,
}

impl ShapeType {
    /// The type with this name; `None` for any other text. No memory.
    pub(crate) fn named(name: &str) -> Option<Self>
        ensures { result ≡ type_named name.now }
    {
        match name {
            "apply" => Some(ShapeType::Applied),
            _ => match Kind::named(name) {
                Some(kind) => Some(ShapeType::Defined(kind)),
                None => None,
            },
        }
    }

    /// What stands in the field of this name; `None` where there is no such field. No memory.
    pub(crate) fn field(self, name: &str) -> Option<FieldForm>
        ensures { result ≡ field_named name.now (layout_of self) }
    {
        if name == "type" {
            return Some(FieldForm::TypeName);
        }
        match self {
            ShapeType::Defined(kind) => field_of(kind, name),
            ShapeType::Applied => match name {
                "traits" => Some(FieldForm::Traits),
                _ => None,
            },
        }
    }
}

/// The type that the value of `type` says; `None` where it says none. No memory.
pub(crate) fn type_of(tree: &Tree) -> Option<ShapeType>
    ensures { result ≡ type_said (node_of tree.now) }
{
    match text_of(tree) {
        Some(text) => ShapeType::named(text),
        None => None,
    }
}

// A field of a shape of this type, but for `type`.
fn field_of(kind: Kind, name: &str) -> Option<FieldForm>
    ensures { result ≡ field_named name.now (shape_fields kind) }
{
    match member_field(kind, name) {
        Some(form) => Some(form),
        None => match PropertyForm::of(kind, name) {
            Some(form) => Some(FieldForm::Property(form)),
            None => last_field(kind, name),
        },
    }
}

fn member_field(kind: Kind, name: &str) -> Option<FieldForm>
    ensures { result ≡ field_named name.now (member_fields (member_form kind)) }
{
    match kind {
        Kind::List => match name {
            "member" => Some(FieldForm::OneMember),
            _ => None,
        },
        Kind::Map => match name {
            "key" | "value" => Some(FieldForm::OneMember),
            _ => None,
        },
        Kind::Structure | Kind::Union | Kind::Enum | Kind::IntEnum => match name {
            "members" => Some(FieldForm::AllMembers),
            _ => None,
        },
        _ => None,
    }
}

fn last_field(kind: Kind, name: &str) -> Option<FieldForm>
    ensures { result ≡ field_named name.now ((traits_name, Traits) ∷ mixin_fields kind) }
{
    match name {
        "traits" => Some(FieldForm::Traits),
        "mixins" => match kind {
            Kind::Service | Kind::Operation | Kind::Resource => None,
            _ => Some(FieldForm::Mixins),
        },
        _ => None,
    }
}
