// How a shape of each type is written.
ghost use Rattle.std.specs.Prelude.{◌≡◌};
ghost use Rattle.sm_idl.specs.WrittenForms.{written_form};

use sm_model::Kind;

/// What stands behind the type and the name of a shape: nothing; the names of its members; its members with their targets; the
/// fields of an operation, service or resource.
#[derive(Clone, Copy)]
pub(crate) enum WrittenForm {
    Alone,
    Names,
    Targets,
    Fields,
}

/// How a shape of this type is written. No memory.
pub(crate) fn form_of(kind: Kind) -> WrittenForm
    ensures { result ≡ written_form kind }
{
    match kind {
        Kind::Enum | Kind::IntEnum => WrittenForm::Names,
        Kind::List | Kind::Map | Kind::Structure | Kind::Union => WrittenForm::Targets,
        Kind::Operation | Kind::Service | Kind::Resource => WrittenForm::Fields,
        _ => WrittenForm::Alone,
    }
}
