// The line of a field, from the node that the graph has in it.
ghost use Rattle.std.specs.Prelude.{◌≡◌, ◌++◌, OnOk, Some, codes};
ghost use Rattle.sm_tree.specs.Node.{members_of, nodes_of};
ghost use Rattle.sm_tree.specs.Parts.{entries_in, pairs_in, text_in};
ghost use Rattle.sm_tree.specs.View.{node_of, nodes_view, members_view};
ghost use Rattle.sm_json.specs.Written.{written};
ghost use Rattle.sm_idl.specs.Written.{field_line, indent, more_ids, more_named_ids, named_id, written_id, written_ids};
ghost use Rattle.sm_idl.specs.Written.{written_named_ids, written_pairs, written_value};

use super::put::{put, put_node, put_string};
use sm_model::PropertyForm;
use sm_tree::{NoMemory, Text, Tree};
use std::alloc::Global;

/// Puts the line of a field in this form, where it has anything in it.
pub(crate) fn put_value(
    alloc: Global,
    name: &str,
    form: PropertyForm,
    node: &Tree,
    out: &mut Vec<u8>,
) -> Result<(), NoMemory>
    ensures { OnOk result (out.new.items ≡ out.old.items ++ field_line name.now (written_value form (node_of node.now))) }
{
    match form {
        PropertyForm::Reference => put_reference(name, node, out),
        PropertyForm::References => put_references(name, node, out),
        PropertyForm::NamedReferences => put_named_references(alloc, name, node, out),
        PropertyForm::Text => put_node_line(alloc, name, node, out),
        PropertyForm::Rename => put_renaming(alloc, name, node, out),
    }
}

// What stands before the value of a field.
fn put_key(name: &str, out: &mut Vec<u8>) -> Result<(), NoMemory>
    ensures { OnOk result (out.new.items ≡ out.old.items ++ (indent ++ name.now ++ codes ": ")) }
{
    put("    ", out)?;
    put(name, out)?;
    put(": ", out)
}

#[tactic(auto, using(sm_tree::proofs::Views::node_text))]
fn put_reference(name: &str, node: &Tree, out: &mut Vec<u8>) -> Result<(), NoMemory>
    ensures { OnOk result (out.new.items ≡ out.old.items ++ field_line name.now (text_in (node_of node.now))) }
{
    match node {
        Tree::Text(id) => put_text_line(name, id.as_str(), out),
        _ => Ok(()),
    }
}

fn put_text_line(name: &str, text: &str, out: &mut Vec<u8>) -> Result<(), NoMemory>
    ensures { OnOk result (out.new.items ≡ out.old.items ++ field_line name.now (Some text.now)) }
{
    put_key(name, out)?;
    put(text, out)?;
    put("\n", out)
}

fn put_node_line(alloc: Global, name: &str, node: &Tree, out: &mut Vec<u8>) -> Result<(), NoMemory>
    ensures { OnOk result (out.new.items ≡ out.old.items ++ field_line name.now (Some (written (node_of node.now)))) }
{
    put_key(name, out)?;
    put_node(alloc, node, out)?;
    put("\n", out)
}

#[tactic(auto, using(sm_tree::proofs::Views::node_object_pairs))]
fn put_renaming(alloc: Global, name: &str, node: &Tree, out: &mut Vec<u8>) -> Result<(), NoMemory>
    ensures { OnOk result (out.new.items ≡ out.old.items ++ field_line name.now (written_pairs (pairs_in (node_of node.now)))) }
{
    match node {
        Tree::Object(pairs) => {
            if pairs.as_slice().is_empty() {
                return Ok(());
            }
            put_node_line(alloc, name, node, out)
        }
        _ => Ok(()),
    }
}

#[tactic(auto, using(sm_tree::proofs::Views::node_list_items))]
fn put_references(name: &str, node: &Tree, out: &mut Vec<u8>) -> Result<(), NoMemory>
    ensures { OnOk result (out.new.items ≡ out.old.items ++ field_line name.now (written_ids (entries_in (node_of node.now)))) }
{
    match node {
        Tree::List(items) => put_ids(name, items.as_slice(), out),
        _ => Ok(()),
    }
}

fn put_ids(name: &str, ids: &[Tree], out: &mut Vec<u8>) -> Result<(), NoMemory>
    ensures { OnOk result (out.new.items ≡ out.old.items ++ field_line name.now (written_ids (Some (nodes_of (nodes_view ids.now))))) }
{
    let Some((first, more)) = ids.split_first() else {
        return Ok(());
    };
    put_key(name, out)?;
    put("[", out)?;
    put_id(first, out)?;
    put_more_ids(more, out)?;
    put("\n", out)
}

fn put_more_ids(ids: &[Tree], out: &mut Vec<u8>) -> Result<(), NoMemory>
    ensures { OnOk result (out.new.items ≡ out.old.items ++ more_ids (nodes_of (nodes_view ids.now))) }
{
    for id in ids {
        put(", ", out)?;
        put_id(id, out)?;
    }
    put("]", out)
}

#[tactic(auto, using(sm_tree::proofs::Views::node_text))]
fn put_id(node: &Tree, out: &mut Vec<u8>) -> Result<(), NoMemory>
    ensures { OnOk result (out.new.items ≡ out.old.items ++ written_id (node_of node.now)) }
{
    match node {
        Tree::Text(id) => put(id.as_str(), out),
        _ => Ok(()),
    }
}

#[tactic(auto, using(sm_tree::proofs::Views::node_object_pairs))]
fn put_named_references(
    alloc: Global,
    name: &str,
    node: &Tree,
    out: &mut Vec<u8>,
) -> Result<(), NoMemory>
    ensures { OnOk result (out.new.items ≡ out.old.items ++ field_line name.now (written_named_ids (pairs_in (node_of node.now)))) }
{
    match node {
        Tree::Object(pairs) => put_named_ids(alloc, name, pairs.as_slice(), out),
        _ => Ok(()),
    }
}

fn put_named_ids(
    alloc: Global,
    name: &str,
    pairs: &[(Text, Tree)],
    out: &mut Vec<u8>,
) -> Result<(), NoMemory>
    ensures { OnOk result (out.new.items
        ≡ out.old.items ++ field_line name.now (written_named_ids (Some (members_of (members_view pairs.now))))) }
{
    let Some((first, more)) = pairs.split_first() else {
        return Ok(());
    };
    put_key(name, out)?;
    put("{", out)?;
    put_named_id(alloc, &first.0, &first.1, out)?;
    put_more_named_ids(alloc, more, out)?;
    put("\n", out)
}

fn put_more_named_ids(
    alloc: Global,
    pairs: &[(Text, Tree)],
    out: &mut Vec<u8>,
) -> Result<(), NoMemory>
    ensures { OnOk result (out.new.items ≡ out.old.items ++ more_named_ids (members_of (members_view pairs.now))) }
{
    for pair in pairs {
        put(",", out)?;
        put_named_id(alloc, &pair.0, &pair.1, out)?;
    }
    put("}", out)
}

fn put_named_id(alloc: Global, key: &Text, id: &Tree, out: &mut Vec<u8>) -> Result<(), NoMemory>
    ensures { OnOk result (out.new.items ≡ out.old.items ++ named_id key.now (node_of id.now)) }
{
    put_string(alloc, key, out)?;
    put(":", out)?;
    put_id(id, out)
}
