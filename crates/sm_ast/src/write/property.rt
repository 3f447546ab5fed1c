// The fields of operations, services and resources that are written, in the order of the layout.
ghost use Rattle.std.specs.Prelude.{◌≡◌, ◌++◌, OnOk};
ghost use Rattle.sm_tree.specs.Node.{members_of};
ghost use Rattle.sm_tree.specs.View.{node_of, members_view};
ghost use Rattle.sm_model.specs.Properties.{property_forms};
ghost use Rattle.sm_tree.specs.Parts.{tree_named};
ghost use Rattle.sm_ast.specs.Written.{field_there, property_there, written_properties, written_property};
ghost use Rattle.sm_ast.specs.PartsSaid.{pairs_said};

use super::field::{put_field, put_filled_list, put_filled_object};
use super::reference::{reference_entries, reference_pairs, reference_to};
use crate::part::{entries_or_none, pairs_or_none};
use sm_model::{Kind, PropertyForm, fields_of};
use sm_tree::{NoMemory, Text, Tree, copy_pairs, copy_tree, tree_under};
use std::alloc::Global;

/// Puts the fields of a shape of this type, of its body.
pub(crate) fn put_properties(
    alloc: Global,
    kind: Kind,
    body: &Tree,
    fields: &mut Vec<(Text, Tree)>,
) -> Result<(), NoMemory>
    ensures { OnOk result (members_view fields.new.items
        ≡ members_view fields.old.items ++ written_properties (property_forms kind) (pairs_said (node_of body.now))) }
{
    let pairs = pairs_or_none(body);
    let wanted = fields_of(kind);
    for field in wanted {
        put_property(alloc, field.0, field.1, pairs, fields)?;
    }
    Ok(())
}

// Puts the field of this name, where the body has it.
fn put_property(
    alloc: Global,
    name: &str,
    form: PropertyForm,
    pairs: &[(Text, Tree)],
    fields: &mut Vec<(Text, Tree)>,
) -> Result<(), NoMemory>
    ensures { OnOk result (members_view fields.new.items
        ≡ members_view fields.old.items ++ field_there name.now (property_there form (tree_named name.now (members_of (members_view pairs.now))))) }
{
    match tree_under(pairs, name) {
        Some(tree) => put_in_form(alloc, name, form, tree, fields),
        None => Ok(()),
    }
}

fn put_in_form(
    alloc: Global,
    name: &str,
    form: PropertyForm,
    tree: &Tree,
    fields: &mut Vec<(Text, Tree)>,
) -> Result<(), NoMemory>
    ensures { OnOk result (members_view fields.new.items
        ≡ members_view fields.old.items ++ field_there name.now (written_property form (node_of tree.now))) }
{
    match form {
        PropertyForm::Reference => {
            let reference = reference_to(alloc, tree)?;
            put_field(alloc, name, reference, fields)
        }
        PropertyForm::References => {
            let entries = reference_entries(alloc, entries_or_none(tree))?;
            put_filled_list(alloc, name, entries, fields)
        }
        PropertyForm::NamedReferences => {
            let pairs = reference_pairs(alloc, pairs_or_none(tree))?;
            put_filled_object(alloc, name, pairs, fields)
        }
        PropertyForm::Text => {
            let text = copy_tree(alloc, tree)?;
            put_field(alloc, name, text, fields)
        }
        PropertyForm::Rename => {
            let pairs = copy_pairs(alloc, pairs_or_none(tree))?;
            put_filled_object(alloc, name, pairs, fields)
        }
    }
}
