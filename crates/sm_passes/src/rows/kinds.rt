// Types of shapes, as the table of traits names them.
ghost use Rattle.std.specs.Prelude.{◌≡◌};
ghost use Rattle.sm_compile.specs.Kinds.{has_values};
ghost use Rattle.sm_rules.specs.TraitRows as table;
ghost use Rattle.sm_passes.specs.Places.{is_defaulted_kind, types_said};

use sm_compile::{has_length, is_text_kind, is_whole_kind};
use sm_model::Kind;

/// Some types of shapes.
#[derive(Debug, Clone, Copy, PartialEq, Eq, Drop)]
pub enum Types {
    /// Structures.
    Structure,
    /// Lists.
    List,
    /// Lists and maps.
    Container,
    /// Operations.
    Operation,
    /// Blobs and unions.
    Streamed,
    /// Resources.
    Resource,
    /// Operations and services.
    Paginated,
    /// Services.
    Service,
    /// Services and resources.
    Titled,
    /// Services and operations.
    Authorized,
    /// Operations and structures.
    Answering,
    /// Types of shapes that may define a trait.
    Trait,
    /// Types whose values may be defaults.
    Defaulted,
    /// Types whose values have a length.
    Sized,
    /// Types of whole numbers of 64 bits at most.
    Whole,
    /// Types of numbers of any size, and of numbers with fractions.
    Fraction,
    /// Types of texts.
    Text,
    /// Strings and blobs.
    Media,
    /// Structures and unions.
    Named,
    /// Enums of texts and of numbers.
    Enum,
    /// Timestamps.
    Timestamp,
    /// Structures and strings.
    Reference,
}

/// Whether a type is one of these.
pub fn is_of(types: Types, kind: Kind) -> bool
    ensures { result ≡ types_said types kind }
{
    match types {
        Types::Structure => is_kind(Kind::Structure, kind),
        Types::List => is_kind(Kind::List, kind),
        Types::Container => is_among(&[Kind::List, Kind::Map], kind),
        Types::Operation => is_kind(Kind::Operation, kind),
        Types::Streamed => is_among(&[Kind::Blob, Kind::Union], kind),
        Types::Resource => is_kind(Kind::Resource, kind),
        Types::Paginated => is_among(&[Kind::Operation, Kind::Service], kind),
        Types::Service => is_kind(Kind::Service, kind),
        Types::Titled => is_among(&[Kind::Service, Kind::Resource], kind),
        Types::Authorized => is_among(&[Kind::Service, Kind::Operation], kind),
        Types::Answering => is_among(&[Kind::Operation, Kind::Structure], kind),
        Types::Trait => is_trait_kind(kind),
        Types::Defaulted => is_defaulted_kind(kind),
        Types::Sized => has_length(kind),
        Types::Whole => is_whole_kind(kind),
        Types::Fraction => is_fraction_kind(kind),
        Types::Text => is_text_kind(kind),
        Types::Media => is_among(&[Kind::Text, Kind::Blob], kind),
        Types::Named => is_among(&[Kind::Structure, Kind::Union], kind),
        Types::Enum => is_among(&[Kind::Enum, Kind::IntEnum], kind),
        Types::Timestamp => is_among(&[Kind::Timestamp], kind),
        Types::Reference => is_among(&[Kind::Structure, Kind::Text], kind),
    }
}

fn is_fraction_kind(kind: Kind) -> bool
    ensures { result ≡ table.is_among table.fraction_kinds kind }
{
    is_among(
        &[
            Kind::Float,
            Kind::Double,
            Kind::BigInteger,
            Kind::BigDecimal,
        ],
        kind,
    )
}

// Those of values that may be defaults: any but structures and unions.
fn is_defaulted_kind(kind: Kind) -> bool
    ensures { result ≡ table.is_among table.defaulted_kinds kind }
{
    is_no_container(kind)
}

fn is_no_container(kind: Kind) -> bool
    ensures { result ≡ is_defaulted_kind kind }
{
    match kind {
        Kind::Structure | Kind::Union | Kind::Service | Kind::Operation | Kind::Resource => false,
        _ => true,
    }
}

// Any but services, operations and resources.
fn is_trait_kind(kind: Kind) -> bool
    ensures { result ≡ table.is_among table.trait_kinds kind }
{
    has_values(kind)
}

fn has_values(kind: Kind) -> bool
    ensures { result ≡ has_values kind }
{
    match kind {
        Kind::Service | Kind::Operation | Kind::Resource => false,
        _ => true,
    }
}

fn is_among(kinds: &[Kind], kind: Kind) -> bool
    ensures { result ≡ table.is_among kinds.now kind }
{
    for wanted in kinds {
        if is_kind(kind, *wanted) {
            return true;
        }
    }
    false
}

/// Whether a type is this one.
pub fn is_kind(wanted: Kind, kind: Kind) -> bool
    ensures { result ≡ table.is_kind wanted kind }
{
    wanted.name() == kind.name()
}
