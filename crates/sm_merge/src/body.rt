// The bodies of operations, services and resources.
ghost use Rattle.std.specs.Prelude.{◌≡◌, ◌++◌, [], ◌∷◌, None, Some, IfOk, MatchOption, OnOk};
ghost use Rattle.std.specs.List.{list_any};
ghost use Rattle.std.specs.Str.{bytes_eq};
ghost use Rattle.sm_tree.specs.Node.{members_of, text};
ghost use Rattle.sm_tree.specs.Parts.{tree_named};
ghost use Rattle.sm_tree.specs.View.{members_view, node_of};
ghost use Rattle.sm_model.specs.Properties.{needed_fields};
ghost use Rattle.sm_model.specs.PreludeShapes.{unit_id};
ghost use Rattle.sm_model.specs.RawView.{raw_members_view, raw_view};
ghost use Rattle.sm_merge.specs.Meaning.{node_meant};
ghost use Rattle.sm_merge.specs.Stated.{body_of, field_stated, is_empty as is_empty_node};
ghost use Rattle.sm_merge.specs.steps.Known.{known};
ghost use Rattle.sm_merge.specs.steps.Meant.{filled, IsObject, pairs_meant, raw_named, raw_pairs_of};

use crate::names::Names;
use crate::node::meant_node;
use sm_model::{Kind, RawNode, fields_of};
use sm_tree::{NoMemory, Pairs, Text, Tree};
use std::alloc::Global;

/// The body of a shape of this type: its fields in the order of the type's, with ids as texts.
pub(crate) fn body(
    alloc: Global,
    names: &Names<'_>,
    kind: Kind,
    node: &RawNode,
) -> Result<Tree, NoMemory>
    requires { IsObject (raw_view node.now) }
    ensures { IfOk result (λ tree. node_of tree ≡ body_of kind (node_meant (known names.now) (raw_view node.now))) }
{
    let pairs = pairs_of(node);
    let mut fields = Vec::new(alloc);
    let wanted = fields_of(kind);
    for field in wanted {
        put_field(alloc, names, kind, field.0, pairs, &mut fields)?;
    }
    Ok(Tree::Object(Pairs::new(fields)))
}

// The pairs of an object; a body is one.
#[tactic(auto, using(crate::proofs::MeantViews::pairs_seen))]
fn pairs_of(node: &RawNode) -> &[(Text, RawNode)]
    ensures { raw_members_view result.now ≡ raw_pairs_of (raw_view node.now) }
{
    match node {
        RawNode::Object(pairs) => pairs.as_slice(),
        _ => &[],
    }
}

// Puts a field, unless it is empty, and `Unit` where one that the type needs isn't given.
fn put_field(
    alloc: Global,
    names: &Names<'_>,
    kind: Kind,
    name: &str,
    pairs: &[(Text, RawNode)],
    fields: &mut Vec<(Text, Tree)>,
) -> Result<(), NoMemory>
    ensures { OnOk result (members_view fields.new.items ≡ members_view fields.old.items
        ++ field_stated kind name.now (tree_named name.now (members_of (pairs_meant (known names.now) (raw_members_view pairs.now))))) }
{
    match raw_under(pairs, name) {
        None => put_missing(alloc, kind, name, fields),
        Some(node) => put_given(alloc, names, name, node, fields),
    }
}

fn put_given(
    alloc: Global,
    names: &Names<'_>,
    name: &str,
    node: &RawNode,
    fields: &mut Vec<(Text, Tree)>,
) -> Result<(), NoMemory>
    ensures { OnOk result (members_view fields.new.items
        ≡ members_view fields.old.items ++ filled name.now (node_meant (known names.now) (raw_view node.now))) }
{
    let tree = meant_node(alloc, names, node)?;
    if is_empty(&tree) {
        return Ok(());
    }
    put_pair(alloc, name, tree, fields)
}

fn put_missing(
    alloc: Global,
    kind: Kind,
    name: &str,
    fields: &mut Vec<(Text, Tree)>,
) -> Result<(), NoMemory>
    ensures { OnOk result (members_view fields.new.items ≡ members_view fields.old.items ++ field_stated kind name.now None) }
{
    if !is_needed(kind, name) {
        return Ok(());
    }
    put_unit(alloc, name, fields)
}

fn put_unit(alloc: Global, name: &str, fields: &mut Vec<(Text, Tree)>) -> Result<(), NoMemory>
    ensures { OnOk result (members_view fields.new.items ≡ members_view fields.old.items ++ (name.now, text unit_id) ∷ []) }
{
    let unit = Tree::Text(Text::copy(alloc, "smithy.api#Unit")?);
    put_pair(alloc, name, unit, fields)
}

/// Puts a copy of the name with its tree behind the pairs that are there.
pub(crate) fn put_pair(
    alloc: Global,
    name: &str,
    tree: Tree,
    fields: &mut Vec<(Text, Tree)>,
) -> Result<(), NoMemory>
    ensures { OnOk result (members_view fields.new.items ≡ members_view fields.old.items ++ (name.now, node_of tree) ∷ []) }
{
    fields.push((Text::copy(alloc, name)?, tree))?;
    Ok(())
}

fn is_needed(kind: Kind, name: &str) -> bool
    ensures { result ≡ list_any (bytes_eq name.now) (needed_fields kind) }
{
    match kind {
        Kind::Operation => name == "input" || name == "output",
        _ => false,
    }
}

// The first node under a name.
fn raw_under<'a>(pairs: &'a [(Text, RawNode)], name: &str) -> Option<&'a RawNode>
    ensures { MatchOption result
        (raw_named name.now (raw_members_view pairs.now) ≡ None)
        (λ node. raw_named name.now (raw_members_view pairs.now) ≡ Some (raw_view node.now)) }
{
    for pair in pairs {
        if pair.0.as_str() == name {
            return Some(&pair.1);
        }
    }
    None
}

// Whether a list or an object has no entries.
fn is_empty(tree: &Tree) -> bool
    ensures { result ≡ is_empty_node (node_of tree.now) }
{
    match tree {
        Tree::List(items) => items.as_slice().is_empty(),
        Tree::Object(pairs) => pairs.as_slice().is_empty(),
        Tree::Null => false,
        Tree::Bool(_) => false,
        Tree::Int(_) => false,
        Tree::Number(_) => false,
        Tree::Text(_) => false,
        Tree::Bytes(_) => false,
        Tree::Tag(_, _) => false,
        Tree::Opaque(_) => false,
    }
}
