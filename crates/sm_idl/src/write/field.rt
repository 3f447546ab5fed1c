// The fields of operations, services and resources that are written, in the order of the type.
ghost use Rattle.std.specs.Prelude.{◌≡◌, ◌++◌, OnOk};
ghost use Rattle.sm_tree.specs.Node.{members_of};
ghost use Rattle.sm_tree.specs.Parts.{pairs_in, tree_named};
ghost use Rattle.sm_tree.specs.View.{node_of, members_view};
ghost use Rattle.sm_model.specs.Properties.{property_forms};
ghost use Rattle.sm_idl.specs.Written.{body_lines, field_line, field_lines, value_there};

use super::value::put_value;
use sm_model::{Kind, PropertyForm, fields_of, tree_under};
use sm_tree::{NoMemory, Text, Tree};
use std::alloc::Global;

/// Puts the fields of a shape of this type, of its body.
#[tactic(auto, using(sm_tree::proofs::Views::node_object_pairs))]
pub(crate) fn put_fields(
    alloc: Global,
    kind: Kind,
    body: &Tree,
    out: &mut Vec<u8>,
) -> Result<(), NoMemory>
    ensures { OnOk result (out.new.items ≡ out.old.items ++ body_lines (property_forms kind) (pairs_in (node_of body.now))) }
{
    match body {
        Tree::Object(pairs) => put_fields_of(alloc, kind, pairs.as_slice(), out),
        _ => Ok(()),
    }
}

fn put_fields_of(
    alloc: Global,
    kind: Kind,
    pairs: &[(Text, Tree)],
    out: &mut Vec<u8>,
) -> Result<(), NoMemory>
    ensures { OnOk result (out.new.items ≡ out.old.items ++ field_lines (property_forms kind) (members_of (members_view pairs.now))) }
{
    let wanted = fields_of(kind);
    for field in wanted {
        put_field(alloc, field.0, field.1, pairs, out)?;
    }
    Ok(())
}

// Puts the line of the field of this name, where the body has it.
fn put_field(
    alloc: Global,
    name: &str,
    form: PropertyForm,
    pairs: &[(Text, Tree)],
    out: &mut Vec<u8>,
) -> Result<(), NoMemory>
    ensures { OnOk result (out.new.items
        ≡ out.old.items ++ field_line name.now (value_there form (tree_named name.now (members_of (members_view pairs.now))))) }
{
    match tree_under(pairs, name) {
        Some(tree) => put_value(alloc, name, form, tree, out),
        None => Ok(()),
    }
}
