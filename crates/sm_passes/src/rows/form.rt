// Whether a value is as a row of the table of traits says.
ghost use Rattle.std.specs.Prelude.{◌≡◌};
ghost use Rattle.std.specs.Option.{option_map};
ghost use Rattle.sm_tree.specs.View.{node_of};
ghost use Rattle.sm_compile.specs.TraitNodes.{where_there};
ghost use Rattle.sm_compile.specs.TraitNodes as nodes;
ghost use Rattle.sm_rules.specs.TraitRows as table;
ghost use Rattle.sm_passes.specs.Forms.{are_two_texts, is_of_form, is_trait_value};

use crate::rows::texts::{
    are_named_texts, are_text_nodes, is_filled_text, is_list, is_side, is_token,
};
use sm_compile::{
    are_whole_bounds_where, field_of, format_of, is_number, is_object, is_range_where, is_text,
};
use sm_http_traits::http::{is_http_value, is_text_there};
use sm_model::Kind;
use sm_tree::Tree;

/// What the rows of the table ask of values.
#[derive(Debug, Clone, Copy, PartialEq, Eq, Drop)]
pub enum RowForm {
    /// Any node.
    AnyValue,
    /// An object.
    AnyObject,
    /// One with `hostPrefix`.
    Endpoint,
    /// One that may have `localTraits`.
    Mixin,
    /// One that may have `selector` and `conflicts`.
    Trait,
    /// One that may have `message` and `since`.
    Deprecated,
    /// One that may have `reason`.
    Recommended,
    /// One with `method` and `uri`, which may have `code`.
    Http,
    /// Bounds that are whole numbers of 64 bits.
    WholeBounds,
    /// Bounds that are numbers.
    AnyBounds,
    /// An object of texts.
    NamedTexts,
    /// A list.
    AnyList,
    /// One of texts.
    Texts,
    /// A text.
    AnyText,
    /// One that isn't empty.
    FilledText,
    /// A token of HTTP.
    Token,
    /// `client` or `server`.
    Side,
    /// The name of a format of timestamps.
    TimeFormat,
    /// A whole number of 64 bits.
    WholeNumber,
    /// A text, or such a number.
    TextOrNumber,
}

/// Whether a value is of a form.
pub fn is_of_form(form: RowForm, tree: &Tree) -> bool
    ensures { result ≡ is_of_form form (node_of tree.now) }
{
    match form {
        RowForm::AnyValue => true,
        RowForm::AnyObject => is_object(tree),
        RowForm::Endpoint => is_object(tree) && is_text_there(field_of(tree, "hostPrefix")),
        RowForm::Mixin => is_object(tree) && are_texts_where(field_of(tree, "localTraits")),
        RowForm::Trait => is_trait_value(tree),
        RowForm::Deprecated => are_two_texts(tree, "message", "since"),
        RowForm::Recommended => is_object(tree) && is_text_where(field_of(tree, "reason")),
        RowForm::Http => is_http_value(tree),
        RowForm::WholeBounds => are_whole_bounds_where(Some(tree)),
        RowForm::AnyBounds => is_range_where(Kind::Float, Some(tree)),
        RowForm::NamedTexts => are_named_texts(tree),
        RowForm::AnyList => is_list(tree),
        RowForm::Texts => are_text_nodes(tree),
        RowForm::AnyText => is_text(tree),
        RowForm::FilledText => is_filled_text(tree),
        RowForm::Token => is_token(tree),
        RowForm::Side => is_side(tree),
        RowForm::TimeFormat => format_of(Some(tree)).is_some(),
        RowForm::WholeNumber => is_number(tree),
        RowForm::TextOrNumber => is_text(tree) || is_number(tree),
    }
}

fn is_trait_value(tree: &Tree) -> bool
    ensures { result ≡ is_trait_value (node_of tree.now) }
{
    is_object(tree)
        && is_text_where(field_of(tree, "selector"))
        && are_texts_where(field_of(tree, "conflicts"))
}

// An object that may have two texts of these names.
fn are_two_texts(tree: &Tree, one: &str, other: &str) -> bool
    ensures { result ≡ are_two_texts one.now other.now (node_of tree.now) }
{
    is_object(tree) && is_text_where(field_of(tree, one)) && is_text_where(field_of(tree, other))
}

fn is_text_where(tree: Option<&Tree>) -> bool
    ensures { result ≡ where_there nodes.is_text (option_map (λ t. node_of t.now) tree.entry) }
{
    match tree {
        Some(tree) => is_text(tree),
        None => true,
    }
}

fn are_texts_where(tree: Option<&Tree>) -> bool
    ensures { result ≡ where_there table.are_text_nodes (option_map (λ t. node_of t.now) tree.entry) }
{
    match tree {
        Some(tree) => are_text_nodes(tree),
        None => true,
    }
}
