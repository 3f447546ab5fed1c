// The fields of operations, services and resources.
ghost use Rattle.std.specs.Prelude.{◌≡◌};
ghost use Rattle.sm_model.specs.FieldsView.{fields_view};
ghost use Rattle.sm_model.specs.Properties.{form_named, property_forms};

use crate::kind::Kind;

/// What stands in a field of an operation, service or resource.
#[derive(Debug, Clone, Copy, PartialEq, Eq, Drop)]
pub enum PropertyForm {
    /// A reference to a shape.
    Reference,
    /// A list of references.
    References,
    /// An object of references, under any names.
    NamedReferences,
    /// A text.
    Text,
    /// An object of identifiers, under ids.
    Rename,
}

impl PropertyForm {
    /// What stands in the field of this name of a shape of this type; `None` where it has no such field. No memory.
    pub fn of(kind: Kind, name: &str) -> Option<Self>
        ensures { result ≡ form_named name.now (property_forms kind) }
    {
        let fields = fields_of(kind);
        for field in fields {
            if name == field.0 {
                return Some(field.1);
            }
        }
        None
    }
}

/// The fields of a type with what stands in each, in the order in which they are written. No memory.
pub fn fields_of(kind: Kind) -> &'static [(&'static str, PropertyForm)]
    ensures { fields_view result.now ≡ property_forms kind }
{
    match kind {
        Kind::Operation => &[
            ("input", PropertyForm::Reference),
            ("output", PropertyForm::Reference),
            ("errors", PropertyForm::References),
        ],
        Kind::Service => &[
            ("version", PropertyForm::Text),
            ("operations", PropertyForm::References),
            ("resources", PropertyForm::References),
            ("errors", PropertyForm::References),
            ("rename", PropertyForm::Rename),
        ],
        Kind::Resource => &[
            ("identifiers", PropertyForm::NamedReferences),
            ("properties", PropertyForm::NamedReferences),
            ("create", PropertyForm::Reference),
            ("put", PropertyForm::Reference),
            ("read", PropertyForm::Reference),
            ("update", PropertyForm::Reference),
            ("delete", PropertyForm::Reference),
            ("list", PropertyForm::Reference),
            ("operations", PropertyForm::References),
            ("collectionOperations", PropertyForm::References),
            ("resources", PropertyForm::References),
        ],
        _ => &[],
    }
}
