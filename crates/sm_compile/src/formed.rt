// Whether the traits that tables are made from have values of their forms. Nothing here takes memory.
ghost use Rattle.std.specs.Prelude.{◌≡◌};
ghost use Rattle.std.specs.Option.{option_map};
ghost use Rattle.sm_tree.specs.View.{node_of};
ghost use Rattle.sm_model.specs.GraphView.{IsShapeNumber, maps_of};
ghost use Rattle.sm_model.specs.Reaching.{id_of_number};
ghost use Rattle.sm_compile.specs.Sound.{trait_of};
ghost use Rattle.sm_compile.specs.TraitNodes as nodes;
ghost use Rattle.sm_compile.specs.TraitNodes.{where_there};
ghost use Rattle.sm_compile.specs.steps.Tests as tests;

use crate::look::trait_node;
use crate::trait_ids::{
    JSON_NAME, LENGTH, PATTERN, RANGE, REQUIRED, SPARSE, TIMESTAMP_FORMAT, UNIQUE_ITEMS,
};
use crate::traits::{bound_of, field_of, format_of, is_any_number, is_number, is_object, is_text};
use sm_model::{Graph, Kind};
use sm_tree::Tree;

/// Whether all these traits have values of their forms; `kind` is the type of the shape, or of a member's target.
pub(crate) fn are_formed(graph: &Graph, number: u32, kind: Kind) -> bool
    requires { IsShapeNumber graph.now number }
    ensures { result ≡ tests.are_formed kind (trait_of (maps_of graph.now) (id_of_number graph.now number)) }
{
    are_annotations(graph, number)
        && is_length(graph, number)
        && is_range_seen(graph, number, kind)
        && are_texts(graph, number)
}

fn are_annotations(graph: &Graph, number: u32) -> bool
    requires { IsShapeNumber graph.now number }
    ensures { result ≡ tests.are_annotations (trait_of (maps_of graph.now) (id_of_number graph.now number)) }
{
    is_object_where(trait_node(graph, number, REQUIRED))
        && is_object_where(trait_node(graph, number, SPARSE))
        && is_object_where(trait_node(graph, number, UNIQUE_ITEMS))
}

fn is_length(graph: &Graph, number: u32) -> bool
    requires { IsShapeNumber graph.now number }
    ensures { result ≡ tests.is_length (trait_of (maps_of graph.now) (id_of_number graph.now number)) }
{
    let length = trait_node(graph, number, LENGTH);
    are_whole_bounds_where(length) && are_lengths_where(length) && are_ordered_where(length)
}

fn is_range_seen(graph: &Graph, number: u32, kind: Kind) -> bool
    requires { IsShapeNumber graph.now number }
    ensures { result ≡ tests.is_range_seen kind (trait_of (maps_of graph.now) (id_of_number graph.now number)) }
{
    let range = trait_node(graph, number, RANGE);
    is_range_where(kind, range) && are_ordered_where(range)
}

fn are_texts(graph: &Graph, number: u32) -> bool
    requires { IsShapeNumber graph.now number }
    ensures { result ≡ tests.are_texts (trait_of (maps_of graph.now) (id_of_number graph.now number)) }
{
    is_text_where(trait_node(graph, number, PATTERN))
        && is_format_where(trait_node(graph, number, TIMESTAMP_FORMAT))
        && is_text_where(trait_node(graph, number, JSON_NAME))
}

/// Whether `enumValue` may have the value that may be there, at a member of a shape of this type.
pub(crate) fn is_enum_value_where(kind: Kind, tree: Option<&Tree>) -> bool
    ensures { result ≡ where_there (nodes.is_enum_value kind) (option_map (λ t. node_of t.now) tree.entry) }
{
    match tree {
        Some(tree) => match kind {
            Kind::Enum => is_text(tree),
            Kind::IntEnum => is_number(tree),
            _ => is_text(tree) || is_number(tree),
        },
        None => true,
    }
}

fn is_object_where(tree: Option<&Tree>) -> bool
    ensures { result ≡ where_there nodes.is_object (option_map (λ t. node_of t.now) tree.entry) }
{
    match tree {
        Some(tree) => is_object(tree),
        None => true,
    }
}

fn is_text_where(tree: Option<&Tree>) -> bool
    ensures { result ≡ where_there nodes.is_text (option_map (λ t. node_of t.now) tree.entry) }
{
    match tree {
        Some(tree) => is_text(tree),
        None => true,
    }
}

fn is_number_where(tree: Option<&Tree>) -> bool
    ensures { result ≡ where_there nodes.is_number (option_map (λ t. node_of t.now) tree.entry) }
{
    match tree {
        Some(tree) => is_number(tree),
        None => true,
    }
}

fn is_any_number_where(tree: Option<&Tree>) -> bool
    ensures { result ≡ where_there nodes.is_any_number (option_map (λ t. node_of t.now) tree.entry) }
{
    match tree {
        Some(tree) => is_any_number(tree),
        None => true,
    }
}

fn is_format_where(tree: Option<&Tree>) -> bool
    ensures { result ≡ where_there nodes.is_timestamp_format (option_map (λ t. node_of t.now) tree.entry) }
{
    match tree {
        Some(_) => format_of(tree).is_some(),
        None => true,
    }
}

// `{min, max}`, each a whole number where it is there.
fn are_whole_bounds(tree: &Tree) -> bool
    ensures { result ≡ nodes.are_whole_bounds (node_of tree.now) }
{
    is_object(tree)
        && is_number_where(field_of(tree, "min"))
        && is_number_where(field_of(tree, "max"))
}

// `{min, max}`, each a number of any size where it is there.
fn are_any_bounds(tree: &Tree) -> bool
    ensures { result ≡ nodes.are_bounds nodes.is_any_number (node_of tree.now) }
{
    is_object(tree)
        && is_any_number_where(field_of(tree, "min"))
        && is_any_number_where(field_of(tree, "max"))
}

/// Whether `length`, where it is there, has whole numbers for bounds. No memory.
pub fn are_whole_bounds_where(tree: Option<&Tree>) -> bool
    ensures { result ≡ where_there nodes.are_whole_bounds (option_map (λ t. node_of t.now) tree.entry) }
{
    match tree {
        Some(tree) => are_whole_bounds(tree),
        None => true,
    }
}

/// Whether `range` of a shape of this type, where it is there, has numbers for bounds. No memory.
pub fn is_range_where(kind: Kind, tree: Option<&Tree>) -> bool
    ensures { result ≡ where_there (nodes.is_range kind) (option_map (λ t. node_of t.now) tree.entry) }
{
    match tree {
        Some(tree) => is_range(kind, tree),
        None => true,
    }
}

fn is_range(kind: Kind, tree: &Tree) -> bool
    ensures { result ≡ nodes.is_range kind (node_of tree.now) }
{
    match kind {
        Kind::Float | Kind::Double | Kind::BigInteger | Kind::BigDecimal => are_any_bounds(tree),
        _ => are_whole_bounds(tree),
    }
}

fn is_ordered(least: Option<i64>, most: Option<i64>) -> bool
    ensures { result ≡ nodes.is_ordered least most }
{
    match least {
        Some(least) => match most {
            Some(most) => least <= most,
            None => true,
        },
        None => true,
    }
}

/// Whether the least bound isn't more than the most, where both are there and fit a word. No memory.
pub fn are_ordered_where(tree: Option<&Tree>) -> bool
    ensures { result ≡ where_there nodes.are_ordered (option_map (λ t. node_of t.now) tree.entry) }
{
    match tree {
        Some(_) => is_ordered(bound_of(tree, "min"), bound_of(tree, "max")),
        None => true,
    }
}

fn is_length_bound(bound: Option<i64>) -> bool
    ensures { result ≡ nodes.is_length_bound bound }
{
    match bound {
        Some(bound) => 0 <= bound,
        None => true,
    }
}

/// Whether no bound is negative. No memory.
pub fn are_lengths_where(tree: Option<&Tree>) -> bool
    ensures { result ≡ where_there nodes.are_lengths (option_map (λ t. node_of t.now) tree.entry) }
{
    match tree {
        Some(_) => is_length_bound(bound_of(tree, "min")) && is_length_bound(bound_of(tree, "max")),
        None => true,
    }
}
