// Texts that must be ids or identifiers, or may be any.
ghost use Rattle.sm_tree.specs.View.{node_of};
ghost use Rattle.std.specs.Prelude.{None};
ghost use Rattle.sm_ast.specs.Faults.{id_fault, identifier_fault, of_text};
ghost use Rattle.sm_ast.specs.steps.Checks.{Checks};

use crate::id::{is_name, is_shape_id};
use crate::refusal::AstRefusal;
use sm_tree::{Tree, text_of};
use std::alloc::Global;

/// The text of an id.
pub(crate) fn check_id(alloc: Global, tree: &Tree) -> Result<(), AstRefusal>
    ensures { Checks (id_fault (node_of tree.now)) result }
{
    match text_of(tree) {
        Some(text) => {
            if is_shape_id(text) {
                Ok(())
            } else {
                Err(AstRefusal::bad_id(alloc))
            }
        }
        None => Err(AstRefusal::wrong_type(alloc)),
    }
}

/// The text of an identifier.
pub(crate) fn check_identifier(alloc: Global, tree: &Tree) -> Result<(), AstRefusal>
    ensures { Checks (identifier_fault (node_of tree.now)) result }
{
    match text_of(tree) {
        Some(text) => {
            if is_name(text) {
                Ok(())
            } else {
                Err(AstRefusal::bad_id(alloc))
            }
        }
        None => Err(AstRefusal::wrong_type(alloc)),
    }
}

/// Any text.
pub(crate) fn check_text(alloc: Global, tree: &Tree) -> Result<(), AstRefusal>
    ensures { Checks (of_text (λ t. None) (node_of tree.now)) result }
{
    match text_of(tree) {
        Some(_) => Ok(()),
        None => Err(AstRefusal::wrong_type(alloc)),
    }
}
