// Fields of the objects that are written, each put behind those before it.
ghost use Rattle.std.specs.Prelude.{◌≡◌, [], ◌∷◌, ◌++◌, OnOk};
ghost use Rattle.sm_tree.specs.Node.{nodes_of, members_of};
ghost use Rattle.sm_tree.specs.Node as nodes;
ghost use Rattle.sm_tree.specs.View.{node_of, nodes_view, members_view};
ghost use Rattle.sm_ast.specs.Written.{field_there, filled_list, filled_object, object_of, written_traits};

use sm_tree::{Items, NoMemory, Pairs, Text, Tree, copy_pairs};
use std::alloc::Global;

/// Puts a field.
pub(crate) fn put_field(
    alloc: Global,
    name: &str,
    tree: Tree,
    fields: &mut Vec<(Text, Tree)>,
) -> Result<(), NoMemory>
    ensures { OnOk result (members_view fields.new.items ≡ members_view fields.old.items ++ (name.now, node_of tree) ∷ []) }
{
    let name = Text::copy(alloc, name)?;
    fields.push((name, tree))?;
    Ok(())
}

/// Puts a field that is a text.
pub(crate) fn put_text(
    alloc: Global,
    name: &str,
    text: &str,
    fields: &mut Vec<(Text, Tree)>,
) -> Result<(), NoMemory>
    ensures { OnOk result (members_view fields.new.items ≡ members_view fields.old.items ++ (name.now, nodes.text text.now) ∷ []) }
{
    let text = Tree::Text(Text::copy(alloc, text)?);
    put_field(alloc, name, text, fields)
}

/// Puts a field that is an object.
pub(crate) fn put_object(
    alloc: Global,
    name: &str,
    pairs: Vec<(Text, Tree)>,
    fields: &mut Vec<(Text, Tree)>,
) -> Result<(), NoMemory>
    ensures { OnOk result (members_view fields.new.items ≡ members_view fields.old.items ++
        (name.now, object_of (members_view pairs.items)) ∷ []) }
{
    put_field(alloc, name, Tree::Object(Pairs::new(pairs)), fields)
}

/// Puts a field that is an object, where it has pairs.
#[tactic(auto, using(crate::proofs::Filled::filled_pairs))]
pub(crate) fn put_filled_object(
    alloc: Global,
    name: &str,
    pairs: Vec<(Text, Tree)>,
    fields: &mut Vec<(Text, Tree)>,
) -> Result<(), NoMemory>
    ensures { OnOk result (members_view fields.new.items
        ≡ members_view fields.old.items ++ field_there name.now (filled_object (members_of (members_view pairs.items)))) }
{
    if pairs.is_empty() {
        return Ok(());
    }
    put_object(alloc, name, pairs, fields)
}

/// Puts a field that is a list.
fn put_list(
    alloc: Global,
    name: &str,
    entries: Vec<Tree>,
    fields: &mut Vec<(Text, Tree)>,
) -> Result<(), NoMemory>
    ensures { OnOk result (members_view fields.new.items ≡ members_view fields.old.items ++
        (name.now, nodes.list (nodes_of (nodes_view entries.items))) ∷ []) }
{
    put_field(alloc, name, Tree::List(Items::new(entries)), fields)
}

/// Puts a field that is a list, where it has entries.
#[tactic(auto, using(crate::proofs::Filled::filled_entries))]
pub(crate) fn put_filled_list(
    alloc: Global,
    name: &str,
    entries: Vec<Tree>,
    fields: &mut Vec<(Text, Tree)>,
) -> Result<(), NoMemory>
    ensures { OnOk result (members_view fields.new.items
        ≡ members_view fields.old.items ++ field_there name.now (filled_list (nodes_of (nodes_view entries.items)))) }
{
    if entries.is_empty() {
        return Ok(());
    }
    put_list(alloc, name, entries, fields)
}

/// Puts traits, where there are any.
pub(crate) fn put_traits(
    alloc: Global,
    traits: &[(Text, Tree)],
    fields: &mut Vec<(Text, Tree)>,
) -> Result<(), NoMemory>
    ensures { OnOk result (members_view fields.new.items ≡ members_view fields.old.items ++ written_traits (members_view traits.now)) }
{
    let copies = copy_pairs(alloc, traits)?;
    put_filled_object(alloc, "traits", copies, fields)
}
