// The statements of a whole tree, in the order of its pairs.
ghost use Rattle.std.specs.Prelude.{◌≡◌, ◌++◌, OnOk, IfOk};
ghost use Rattle.sm_tree.specs.Json.{IsJson, AreJsonMembers};
ghost use Rattle.sm_tree.specs.Node.{members_of};
ghost use Rattle.sm_tree.specs.View.{node_of, members_view};
ghost use Rattle.sm_model.specs.SaidView.{statements_view};
ghost use Rattle.sm_ast.specs.steps.Saying.{ast_said, metadata_statements, shape_statements, top_said, top_statements};

use super::node::raw_node;
use super::shape::statement;
use crate::part::pairs_or_none;
use sm_model::Statement;
use sm_tree::{NoMemory, Text, Tree};
use std::alloc::Global;

/// The statements that a tree says.
pub(crate) fn statements_of(alloc: Global, tree: &Tree) -> Result<Vec<Statement>, NoMemory>
    requires { IsJson (node_of tree.now) }
    ensures { IfOk result (λ said. statements_view said.items ≡ ast_said (node_of tree.now)) }
{
    let mut statements = Vec::new(alloc);
    put_top(alloc, pairs_or_none(tree), &mut statements)?;
    Ok(statements)
}

fn put_top(
    alloc: Global,
    pairs: &[(Text, Tree)],
    statements: &mut Vec<Statement>,
) -> Result<(), NoMemory>
    requires { AreJsonMembers (members_of (members_view pairs.now)) }
    ensures { OnOk result (statements_view statements.new.items ≡ statements_view statements.old.items ++ top_statements
        (members_of (members_view pairs.now))) }
{
    for pair in pairs {
        put_pair(alloc, pair.0.as_str(), &pair.1, statements)?;
    }
    Ok(())
}

fn put_pair(
    alloc: Global,
    name: &str,
    tree: &Tree,
    statements: &mut Vec<Statement>,
) -> Result<(), NoMemory>
    requires { IsJson (node_of tree.now) }
    ensures { OnOk result (statements_view statements.new.items ≡ statements_view statements.old.items ++ top_said name.now
        (node_of tree.now)) }
{
    match name {
        "metadata" => put_metadata(alloc, pairs_or_none(tree), statements),
        "shapes" => put_shapes(alloc, pairs_or_none(tree), statements),
        _ => Ok(()),
    }
}

fn put_metadata(
    alloc: Global,
    pairs: &[(Text, Tree)],
    statements: &mut Vec<Statement>,
) -> Result<(), NoMemory>
    requires { AreJsonMembers (members_of (members_view pairs.now)) }
    ensures { OnOk result (statements_view statements.new.items ≡ statements_view statements.old.items ++ metadata_statements
        (members_of (members_view pairs.now))) }
{
    for pair in pairs {
        let key = Text::copy(alloc, pair.0.as_str())?;
        let value = raw_node(alloc, &pair.1)?;
        statements.push(Statement::Metadata(key, value))?;
    }
    Ok(())
}

fn put_shapes(
    alloc: Global,
    pairs: &[(Text, Tree)],
    statements: &mut Vec<Statement>,
) -> Result<(), NoMemory>
    requires { AreJsonMembers (members_of (members_view pairs.now)) }
    ensures { OnOk result (statements_view statements.new.items ≡ statements_view statements.old.items ++ shape_statements
        (members_of (members_view pairs.now))) }
{
    for pair in pairs {
        statements.push(statement(alloc, pair.0.as_str(), pairs_or_none(&pair.1))?)?;
    }
    Ok(())
}
