// The fields of operations, services and resources.
ghost use Rattle.sm_tree.specs.View.{node_of};
ghost use Rattle.sm_ast.specs.Faults.{property_fault, rename_fault};
ghost use Rattle.sm_ast.specs.steps.Checks.{Checks};

use super::pairs::{PairRule, check_pairs};
use super::reference::{check_named_references, check_reference, check_references};
use super::text::{check_identifier, check_text};
use crate::id::is_shape_id;
use crate::refusal::AstRefusal;
use sm_model::PropertyForm;
use sm_tree::{Text, Tree, pairs_of};
use std::alloc::Global;

#[derive(Drop)]
struct IsNewName;

impl PairRule for IsNewName {
    ghost use Rattle.sm_ast.specs.Faults.{new_name_fault};

    ghost fault = { λ _ k n. new_name_fault k n };

    fn check(&self, alloc: Global, name: &Text, tree: &Tree) -> Result<(), AstRefusal> {
        if is_shape_id(name.as_str()) {
            check_identifier(alloc, tree)
        } else {
            Err(AstRefusal::bad_id(alloc))
        }
    }
}

/// An object of identifiers under ids.
fn check_rename(alloc: Global, tree: &Tree) -> Result<(), AstRefusal>
    ensures { Checks (rename_fault (node_of tree.now)) result }
{
    match pairs_of(tree) {
        Some(pairs) => check_pairs(alloc, &IsNewName, pairs),
        None => Err(AstRefusal::wrong_type(alloc)),
    }
}

/// A field of this form.
pub(crate) fn check_property(
    alloc: Global,
    form: PropertyForm,
    tree: &Tree,
) -> Result<(), AstRefusal>
    ensures { Checks (property_fault form (node_of tree.now)) result }
{
    match form {
        PropertyForm::Reference => check_reference(alloc, tree),
        PropertyForm::References => check_references(alloc, tree),
        PropertyForm::NamedReferences => check_named_references(alloc, tree),
        PropertyForm::Text => check_text(alloc, tree),
        PropertyForm::Rename => check_rename(alloc, tree),
    }
}
