// The value of a path at a shape or member.
ghost use Rattle.std.specs.Prelude.{◌≡◌, MatchOption, None, Some};
ghost use Rattle.std.specs.Option.{option_copied, option_map};
ghost use Rattle.sm_tree.specs.Node.{text};
ghost use Rattle.sm_tree.specs.View.{node_of};
ghost use Rattle.sm_model.specs.GraphView.{IsShapeNumber, maps_of};
ghost use Rattle.sm_model.specs.Reaching.{id_of_number};
ghost use Rattle.sm_select.specs.Picks.{HasValue, value_at_key, value_within};
ghost use Rattle.sm_select.specs.View.{path_view};
ghost use Rattle.sm_select.specs.steps.Filtering.{HoldsOfOnly, found_node};

use crate::selector::SelectorPath;
use sm_model::{Graph, tree_under};
use sm_tree::{Text, Tree};

/// The value that a path has: part of an id, or in a trait's value.
#[derive(Clone, Copy)]
pub(crate) enum Found<'a> {
    /// Part of an id.
    Part(&'a str),
    /// A node.
    Value(&'a Tree),
}

/// The value of a path at a shape or member; `None` where it has none. No memory.
pub(crate) fn value_of<'a>(graph: &'a Graph, number: u32, path: &SelectorPath) -> Option<Found<'a>>
    requires { IsShapeNumber graph.now number }
    ensures { HoldsOfOnly (HasValue (maps_of graph.now) (id_of_number graph.now number) (path_view path.now))
        (option_map found_node result) }
{
    let id = graph.id(number);
    match path {
        SelectorPath::Id => Some(Found::Part(id.as_str())),
        SelectorPath::IdNamespace => Some(Found::Part(id.as_ref().namespace)),
        SelectorPath::IdName => Some(Found::Part(id.as_ref().name)),
        SelectorPath::IdMember => found_part(id.as_ref().member),
        SelectorPath::Trait(named, keys) => match graph.trait_value(number, named.as_str()) {
            Some(tree) => found_tree(tree_within(tree, keys.as_slice())),
            None => None,
        },
    }
}

fn found_part(part: Option<&str>) -> Option<Found<'_>>
    ensures { option_map found_node result ≡ option_map text (option_copied part.entry) }
{
    match part {
        Some(part) => Some(Found::Part(part)),
        None => None,
    }
}

fn found_tree(tree: Option<&Tree>) -> Option<Found<'_>>
    ensures { option_map found_node result ≡ option_map (λ t. node_of t.now) tree.entry }
{
    match tree {
        Some(tree) => Some(Found::Value(tree)),
        None => None,
    }
}

// The value of a field, of a field within it, and so on.
fn tree_within<'a>(tree: &'a Tree, keys: &[Text]) -> Option<&'a Tree>
    ensures { value_within keys.now (node_of tree.now) ≡ option_map (λ t. node_of t.now) result }
{
    let mut within = tree;
    for key in keys {
        match tree_at_key(within, key.as_str()) {
            Some(next) => within = next,
            None => return None,
        }
    }
    Some(within)
}

// The value of a field of an object, the first of its name.
#[tactic(auto, using(sm_tree::proofs::Views::node_object_pairs))]
fn tree_at_key<'a>(tree: &'a Tree, name: &str) -> Option<&'a Tree>
    ensures { MatchOption result
        (value_at_key name.now (node_of tree.now) ≡ None)
        (λ t. value_at_key name.now (node_of tree.now) ≡ Some (node_of t.now)) }
{
    match tree {
        Tree::Object(pairs) => tree_under(pairs.as_slice(), name),
        _ => None,
    }
}
