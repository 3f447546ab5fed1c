// Statements of `shapes`: a shape, or traits that are applied.
ghost use Rattle.std.specs.Prelude.{◌≡◌, IfOk};
ghost use Rattle.sm_tree.specs.Json.{AreJsonMembers};
ghost use Rattle.sm_tree.specs.Node.{members_of};
ghost use Rattle.sm_tree.specs.View.{members_view};
ghost use Rattle.sm_ids.specs.IdText.{printed};
ghost use Rattle.sm_ids.specs.View.{id_of};
ghost use Rattle.sm_model.specs.SaidView.{shape_view, statement_view};
ghost use Rattle.sm_tree.specs.Parts.{tree_named};
ghost use Rattle.sm_ast.specs.Layout.{type_name};
ghost use Rattle.sm_ast.specs.steps.Saying.{applied_said, shape_by_kind, statement_by_pairs, statement_by_type, type_there};

use super::member::members_of_kind;
use super::property::properties;
use super::reference::{absolute, references_under};
use super::traits::traits_under;
use crate::layout::{ShapeType, type_of};
use sm_ids::{ShapeId, ShapeIdRef};
use sm_model::{Kind, RawNode, RawPairs, ShapeStatement, Statement};
use sm_tree::{NoMemory, Text, Tree, tree_under};
use std::alloc::Global;

/// The statement that these pairs say under an id. Under no id, or with no type, they are read as traits that are applied.
pub(crate) fn statement(
    alloc: Global,
    name: &str,
    pairs: &[(Text, Tree)],
) -> Result<Statement, NoMemory>
    requires { AreJsonMembers (members_of (members_view pairs.now)) }
    ensures { IfOk result (λ said. statement_view said ≡ statement_by_pairs name.now (members_of (members_view pairs.now))) }
{
    match ShapeIdRef::parse(name) {
        Ok(id) => typed(alloc, name, &id, pairs),
        Err(_) => applied(alloc, name, pairs),
    }
}

fn typed(
    alloc: Global,
    name: &str,
    id: &ShapeIdRef<'_>,
    pairs: &[(Text, Tree)],
) -> Result<Statement, NoMemory>
    requires json { AreJsonMembers (members_of (members_view pairs.now)) }
    requires id { name.now ≡ printed (id_of id.now) }
    ensures { IfOk result (λ said. statement_view said ≡ statement_by_type
        (type_there (tree_named type_name (members_of (members_view pairs.now)))) name.now (members_of (members_view pairs.now))) }
{
    match type_under(pairs) {
        Some(ShapeType::Defined(kind)) => {
            Ok(Statement::Shape(shape(alloc, name, id, kind, pairs)?))
        }
        _ => applied(alloc, name, pairs),
    }
}

fn type_under(pairs: &[(Text, Tree)]) -> Option<ShapeType>
    ensures { result ≡ type_there (tree_named type_name (members_of (members_view pairs.now))) }
{
    match tree_under(pairs, "type") {
        Some(tree) => type_of(tree),
        None => None,
    }
}

fn applied(alloc: Global, name: &str, pairs: &[(Text, Tree)]) -> Result<Statement, NoMemory>
    requires { AreJsonMembers (members_of (members_view pairs.now)) }
    ensures { IfOk result (λ said. statement_view said ≡ applied_said name.now (members_of (members_view pairs.now))) }
{
    let id = absolute(alloc, name, false)?;
    Ok(Statement::Apply(id, traits_under(alloc, pairs)?))
}

fn shape(
    alloc: Global,
    name: &str,
    id: &ShapeIdRef<'_>,
    kind: Kind,
    pairs: &[(Text, Tree)],
) -> Result<ShapeStatement, NoMemory>
    requires json { AreJsonMembers (members_of (members_view pairs.now)) }
    requires id { name.now ≡ printed (id_of id.now) }
    ensures { IfOk result (λ said. shape_view said ≡ shape_by_kind name.now kind (members_of (members_view pairs.now))) }
{
    let id = copied(alloc, id)?;
    let members = members_of_kind(alloc, kind, pairs)?;
    let mixins = references_under(alloc, pairs, "mixins")?;
    let properties = properties(alloc, kind, pairs)?;
    let traits = traits_under(alloc, pairs)?;
    Ok(ShapeStatement {
        id,
        kind,
        members,
        mixins,
        properties: RawNode::Object(RawPairs::new(properties)),
        traits,
    })
}

fn copied(alloc: Global, id: &ShapeIdRef<'_>) -> Result<ShapeId, NoMemory>
    ensures { IfOk result (λ copy. copy ≡ printed (id_of id.now)) }
{
    match ShapeId::new(alloc, id) {
        Ok(copy) => Ok(copy),
        Err(_) => Err(NoMemory),
    }
}
