// What the values of traits say, and which values they may have. Nothing here takes memory.
ghost use Rattle.std.specs.Prelude.{◌≡◌, Some, None};
ghost use Rattle.std.specs.Option.{option_copied, option_map};
ghost use Rattle.sm_tree.specs.View.{node_of};
ghost use Rattle.sm_compile.specs.TraitNodes as nodes;
ghost use Rattle.sm_compile.specs.TraitNodes.{bound_of, field_of, format_named, number_in, number_of, text_of};
ghost use Rattle.sm_tree.specs.Parts.{text_in};

use crate::look::trait_node;
use sm_model::{Graph, Kind, pairs_of, text_of, tree_under};
use sm_time::Format;
use sm_tree::Tree;

/// The number that a tree is, where it fits 64 bits with sign. No memory.
#[tactic(auto, using(sm_tree::proofs::Views::node_int))]
pub fn number_in(tree: &Tree) -> Option<i64>
    ensures { result ≡ number_in (node_of tree.now) }
{
    match tree {
        Tree::Int(number) => Some(*number),
        _ => None,
    }
}

/// Whether a tree is an object. No memory.
#[tactic(auto, using(sm_tree::proofs::Views::node_object_pairs))]
pub fn is_object(tree: &Tree) -> bool
    ensures { result ≡ nodes.is_object (node_of tree.now) }
{
    match tree {
        Tree::Object(_) => true,
        _ => false,
    }
}

/// Whether a tree is a text. No memory.
#[tactic(auto, using(sm_tree::proofs::Views::node_text))]
pub fn is_text(tree: &Tree) -> bool
    ensures { result ≡ nodes.is_text (node_of tree.now) }
{
    match tree {
        Tree::Text(_) => true,
        _ => false,
    }
}

/// Whether a tree is a whole number that fits 64 bits with sign. No memory.
pub fn is_number(tree: &Tree) -> bool
    ensures { result ≡ nodes.is_number (node_of tree.now) }
{
    number_in(tree).is_some()
}

/// Whether a tree is a number of any size. No memory.
#[tactic(auto, using(sm_tree::proofs::Views::node_int, sm_tree::proofs::Views::node_number))]
pub fn is_any_number(tree: &Tree) -> bool
    ensures { result ≡ nodes.is_any_number (node_of tree.now) }
{
    match tree {
        Tree::Int(_) => true,
        Tree::Number(_) => true,
        _ => false,
    }
}

/// What stands under a name in an object; `None` for any other tree. No memory.
#[tactic(auto, using(sm_tree::proofs::Views::node_object_pairs))]
pub fn field_of<'a>(tree: &'a Tree, name: &str) -> Option<&'a Tree>
    ensures { option_map (λ t. node_of t.now) result ≡ field_of name.now (node_of tree.now) }
{
    match tree {
        Tree::Object(pairs) => tree_under(pairs.as_slice(), name),
        _ => None,
    }
}

/// The bound of this name in the value of `length` or `range`.
pub(crate) fn bound_of(tree: Option<&Tree>, name: &str) -> Option<i64>
    ensures { result ≡ bound_of name.now (option_map (λ t. node_of t.now) tree.entry) }
{
    match tree {
        Some(tree) => number_of(field_of(tree, name)),
        None => None,
    }
}

/// The number that may be there, where it fits 64 bits with sign. No memory.
pub fn number_of(tree: Option<&Tree>) -> Option<i64>
    ensures { result ≡ number_of (option_map (λ t. node_of t.now) tree.entry) }
{
    match tree {
        Some(tree) => number_in(tree),
        None => None,
    }
}

/// The text that may be there. No memory.
pub fn text_in_trait(tree: Option<&Tree>) -> Option<&str>
    ensures { option_copied result ≡ text_of (option_map (λ t. node_of t.now) tree.entry) }
{
    match tree {
        Some(tree) => text_in(tree),
        None => None,
    }
}

// The text that a tree is.
#[tactic(auto, using(sm_tree::proofs::Views::node_text))]
fn text_in(tree: &Tree) -> Option<&str>
    ensures { option_copied result ≡ text_in (node_of tree.now) }
{
    match tree {
        Tree::Text(text) => Some(text.as_str()),
        _ => None,
    }
}

/// The format that the text names that may be there. No memory.
pub fn format_of(tree: Option<&Tree>) -> Option<Format>
    ensures { result ≡ format_named (text_of (option_map (λ t. node_of t.now) tree.entry)) }
{
    match text_in_trait(tree) {
        Some(text) => format_named(text),
        None => None,
    }
}

fn format_named(text: &str) -> Option<Format>
    ensures { result ≡ format_named (Some text.now) }
{
    match text {
        "date-time" => Some(Format::DateTime),
        "http-date" => Some(Format::HttpDate),
        "epoch-seconds" => Some(Format::EpochSeconds),
        _ => None,
    }
}
