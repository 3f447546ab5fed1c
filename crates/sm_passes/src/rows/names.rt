// The rows of the table of traits that name a trait, by its id. Nothing here takes memory.
ghost use Rattle.std.specs.Prelude.{◌≡◌, ◌||◌, ◌++◌, Bool, List};
ghost use Rattle.sm_rules.specs.TraitRows.{PlaceForm, ValueForm, constraint_rows, documentation_rows, other_rows, rows_of_shapes};
ghost use Rattle.sm_rules.specs.TraitRows.{trait_rows, wire_rows};
ghost use Rattle.sm_passes.specs.Forms.{form_said};
ghost use Rattle.sm_passes.specs.Places.{places_said};
ghost use Rattle.sm_passes.specs.RowTests.{AsksOfRow, any_row, some_row, some_said};

use crate::rows::form::RowForm;
use crate::rows::kinds::Types;
use crate::rows::place::RowPlace;

/// What is asked of a row.
pub trait RowTest {
    ghost passes: { Self → ValueForm → List PlaceForm → Bool };

    /// Whether a row of this form and place passes.
    fn passes(&self, form: RowForm, place: RowPlace) -> bool
        ensures { result ≡ passes self.now (form_said form) (places_said place) };
}

/// The rows that name one trait, each by the form of its values and its places.
#[derive(Clone, Copy, Drop)]
pub enum FoundRows {
    /// None does.
    Absent,
    /// One.
    One(RowForm, RowPlace),
    /// Two.
    Two(RowForm, RowPlace, RowForm, RowPlace),
}

impl FoundRows {
    /// Whether one of them passes.
    pub fn some<T: RowTest>(self, test: &T) -> bool
        ensures { result ≡ some_said (T.passes test.now) self }
    {
        match self {
            FoundRows::Absent => false,
            FoundRows::One(form, place) => test.passes(form, place),
            FoundRows::Two(form, place, other_form, other_place) => {
                let one = test.passes(form, place);
                let other = test.passes(other_form, other_place);
                either(one, other)
            }
        }
    }
}

/// Whether one holds.
pub fn either(one: bool, other: bool) -> bool
    ensures { result ≡ (one || other) }
{
    one || other
}

/// Any row passes.
#[derive(Drop)]
pub struct AnyRow;

impl RowTest for AnyRow {
    ghost passes = { λ test. any_row };

    fn passes(&self, _form: RowForm, _place: RowPlace) -> bool {
        true
    }
}

/// Whether a row that names the trait passes.
pub fn some_row<T: RowTest>(name: &str, test: &T) -> bool
    ensures { result ≡ some_row name.now (T.passes test.now) trait_rows }
{
    rows_of(name).some(test)
}

/// The rows that name a trait: none, one or two.
pub fn rows_of(name: &str) -> FoundRows
    ensures { (test : AsksOfRow) → some_said test result ≡ some_row name.now test trait_rows }
{
    match name {
        "smithy.api#required"
        | "smithy.api#clientOptional"
        | "smithy.api#addedDefault"
        | "smithy.api#idempotencyToken"
        | "smithy.api#httpLabel"
        | "smithy.api#httpPayload"
        | "smithy.api#httpQueryParams"
        | "smithy.api#httpResponseCode"
        | "smithy.api#hostLabel" => FoundRows::One(RowForm::AnyObject, RowPlace::StructureMember),
        "smithy.api#input"
        | "smithy.api#output"
        | "smithy.api#protocolDefinition"
        | "smithy.api#authDefinition"
        | "smithy.api#retryable" => FoundRows::One(
            RowForm::AnyObject,
            RowPlace::Of(Types::Structure),
        ),
        "smithy.api#sparse" => FoundRows::One(RowForm::AnyObject, RowPlace::Of(Types::Container)),
        "smithy.api#uniqueItems" => FoundRows::One(RowForm::AnyObject, RowPlace::Of(Types::List)),
        "smithy.api#private"
        | "smithy.api#internal"
        | "smithy.api#unstable"
        | "smithy.api#sensitive" => FoundRows::One(RowForm::AnyObject, RowPlace::Everywhere),
        "smithy.api#readonly" | "smithy.api#idempotent" | "smithy.api#optionalAuth" =>
            FoundRows::One(RowForm::AnyObject, RowPlace::Of(Types::Operation)),
        "smithy.api#streaming" | "smithy.api#requiresLength" => FoundRows::One(
            RowForm::AnyObject,
            RowPlace::Of(Types::Streamed),
        ),
        "smithy.api#noReplace" => FoundRows::One(RowForm::AnyObject, RowPlace::Of(Types::Resource)),
        "smithy.api#unitType" => FoundRows::One(RowForm::AnyObject, RowPlace::Unit),
        "smithy.api#paginated" => FoundRows::One(
            RowForm::AnyObject,
            RowPlace::Of(Types::Paginated),
        ),
        "smithy.api#cors" => FoundRows::One(RowForm::AnyObject, RowPlace::Of(Types::Service)),
        _ => behind_annotations(name),
    }
}

// Of those that are no annotations: what shapes are and may have, and all behind that.
fn behind_annotations(name: &str) -> FoundRows
    ensures { (test : AsksOfRow) → some_said test result ≡
        some_row name.now test (rows_of_shapes ++ constraint_rows ++ documentation_rows ++ wire_rows ++ other_rows) }
{
    match name {
        "smithy.api#endpoint" => FoundRows::One(RowForm::Endpoint, RowPlace::Of(Types::Operation)),
        "smithy.api#mixin" => FoundRows::One(RowForm::Mixin, RowPlace::AnyShape),
        "smithy.api#default" => FoundRows::One(RowForm::AnyValue, RowPlace::Default),
        "smithy.api#enumValue" => FoundRows::One(
            RowForm::TextOrNumber,
            RowPlace::MemberOf(Types::Enum),
        ),
        "smithy.api#error" => FoundRows::One(RowForm::Side, RowPlace::Of(Types::Structure)),
        "smithy.api#trait" => FoundRows::One(RowForm::Trait, RowPlace::Of(Types::Trait)),
        _ => behind_shapes(name),
    }
}

// Constraints, and all behind them.
fn behind_shapes(name: &str) -> FoundRows
    ensures { (test : AsksOfRow) → some_said test result ≡
        some_row name.now test (constraint_rows ++ documentation_rows ++ wire_rows ++ other_rows) }
{
    match name {
        "smithy.api#length" => FoundRows::One(RowForm::WholeBounds, RowPlace::With(Types::Sized)),
        "smithy.api#range" => FoundRows::Two(
            RowForm::WholeBounds,
            RowPlace::With(Types::Whole),
            RowForm::AnyBounds,
            RowPlace::With(Types::Fraction),
        ),
        "smithy.api#pattern" => FoundRows::One(RowForm::AnyText, RowPlace::With(Types::Text)),
        _ => behind_constraints(name),
    }
}

// Documentation, and all behind it.
fn behind_constraints(name: &str) -> FoundRows
    ensures { (test : AsksOfRow) → some_said test result ≡ some_row name.now test (documentation_rows ++ wire_rows ++ other_rows) }
{
    match name {
        "smithy.api#documentation" | "smithy.api#since" => FoundRows::One(
            RowForm::AnyText,
            RowPlace::Everywhere,
        ),
        "smithy.api#title" => FoundRows::One(RowForm::AnyText, RowPlace::Of(Types::Titled)),
        "smithy.api#tags" | "smithy.api#suppress" => FoundRows::One(
            RowForm::Texts,
            RowPlace::Everywhere,
        ),
        "smithy.api#auth" => FoundRows::One(RowForm::Texts, RowPlace::Of(Types::Authorized)),
        "smithy.api#deprecated" => FoundRows::One(RowForm::Deprecated, RowPlace::Everywhere),
        "smithy.api#recommended" => FoundRows::One(RowForm::Recommended, RowPlace::StructureMember),
        "smithy.api#externalDocumentation" => FoundRows::One(
            RowForm::NamedTexts,
            RowPlace::Everywhere,
        ),
        "smithy.api#examples" => FoundRows::One(RowForm::AnyList, RowPlace::Of(Types::Operation)),
        _ => behind_documentation(name),
    }
}

// What is said of the wire, and all behind that.
fn behind_documentation(name: &str) -> FoundRows
    ensures { (test : AsksOfRow) → some_said test result ≡ some_row name.now test (wire_rows ++ other_rows) }
{
    match name {
        "smithy.api#mediaType" => FoundRows::One(RowForm::AnyText, RowPlace::With(Types::Media)),
        "smithy.api#jsonName" => FoundRows::One(RowForm::AnyText, RowPlace::MemberOf(Types::Named)),
        "smithy.api#timestampFormat" => FoundRows::One(
            RowForm::TimeFormat,
            RowPlace::With(Types::Timestamp),
        ),
        "smithy.api#http" => FoundRows::One(RowForm::Http, RowPlace::Of(Types::Operation)),
        "smithy.api#httpError" => FoundRows::One(
            RowForm::WholeNumber,
            RowPlace::Of(Types::Structure),
        ),
        "smithy.api#httpHeader" => FoundRows::One(RowForm::Token, RowPlace::StructureMember),
        "smithy.api#httpQuery" => FoundRows::One(RowForm::FilledText, RowPlace::StructureMember),
        "smithy.api#httpPrefixHeaders" => FoundRows::One(
            RowForm::AnyText,
            RowPlace::StructureMember,
        ),
        "smithy.api#resourceIdentifier" => FoundRows::One(
            RowForm::AnyText,
            RowPlace::StructureMember,
        ),
        "smithy.api#references" => FoundRows::One(
            RowForm::AnyList,
            RowPlace::With(Types::Reference),
        ),
        _ => behind_wire(name),
    }
}

// Protocols and protocol tests.
fn behind_wire(name: &str) -> FoundRows
    ensures { (test : AsksOfRow) → some_said test result ≡ some_row name.now test other_rows }
{
    match name {
        "aws.protocols#awsJson1_0"
        | "aws.protocols#awsJson1_1"
        | "aws.protocols#restJson1"
        | "smithy.protocols#rpcv2Cbor" => FoundRows::One(
            RowForm::AnyObject,
            RowPlace::Of(Types::Service),
        ),
        "smithy.test#httpRequestTests" => FoundRows::One(
            RowForm::AnyList,
            RowPlace::Of(Types::Operation),
        ),
        "smithy.test#httpResponseTests" => FoundRows::One(
            RowForm::AnyList,
            RowPlace::Of(Types::Answering),
        ),
        _ => FoundRows::Absent,
    }
}
