// The statements of a tree, which is checked whole before any is made.
ghost use Rattle.std.specs.Prelude.{IfOk};
ghost use Rattle.sm_tree.specs.Json.{IsJson};
ghost use Rattle.sm_tree.specs.View.{node_of};
ghost use Rattle.sm_model.specs.Formed.{AreFormed};
ghost use Rattle.sm_model.specs.SaidView.{statements_view};
ghost use Rattle.sm_ast.specs.Answers.{ReadsAst};
ghost use Rattle.sm_ast.specs.Distinct.{AreOfTree};

use crate::check::check_model;
use crate::refusal::AstRefusal;
use crate::statements::statements_of;
use sm_model::Statement;
use sm_tree::Tree;
use std::alloc::Global;

/// The statements that a tree says as a model of the JSON AST, in the order of its pairs; or the first refusal in the order of
/// the tree, where a missing field stands at the end of its object. Refused for its version, a field, a value of another kind
/// or an id as [`AstRefusal`] says, and `NoMemory` where the allocator refuses.
pub fn read_ast(alloc: Global, tree: &Tree) -> Result<Vec<Statement>, AstRefusal>
    requires { IsJson (node_of tree.now) }
    ensures statements { ReadsAst (node_of tree.now) result }
    ensures formed { IfOk result (λ ss. AreFormed (statements_view ss.items)) }
    ensures of_tree { IfOk result (λ ss. AreOfTree (statements_view ss.items)) }
{
    match check_model(alloc, tree) {
        Ok(()) => Ok(statements_of(alloc, tree)?),
        Err(refusal) => Err(refusal),
    }
}
