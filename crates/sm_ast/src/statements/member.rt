// Members: those of an object, or the one or two of a list or a map.
ghost use Rattle.std.specs.Prelude.{◌≡◌, IfOk};
ghost use Rattle.sm_tree.specs.Json.{AreJsonMembers};
ghost use Rattle.sm_tree.specs.Node.{members_of};
ghost use Rattle.sm_tree.specs.View.{members_view};
ghost use Rattle.sm_model.specs.Kinds.{member_form};
ghost use Rattle.sm_model.specs.SaidView.{member_statements_of, member_statements_view, member_view};
ghost use Rattle.sm_ast.specs.Layout.{members_name};
ghost use Rattle.sm_tree.specs.Parts.{tree_named};
ghost use Rattle.sm_ast.specs.steps.Saying.{member_by_pairs, member_there, members_by_form, members_said, members_there};

use super::reference::target;
use super::traits::traits_under;
use crate::part::pairs_or_none;
use sm_model::{Kind, MemberStatement, MemberStatements};
use sm_tree::{NoMemory, Text, Tree, tree_under};
use std::alloc::Global;

/// The members of a shape of this type.
pub(crate) fn members_of_kind(
    alloc: Global,
    kind: Kind,
    pairs: &[(Text, Tree)],
) -> Result<MemberStatements, NoMemory>
    requires { AreJsonMembers (members_of (members_view pairs.now)) }
    ensures { IfOk result (λ said. member_statements_of said ≡ members_by_form (member_form kind) (members_of (members_view pairs.now))) }
{
    let mut members = Vec::new(alloc);
    match kind {
        Kind::List => members.push(member_under(alloc, "member", pairs)?)?,
        Kind::Map => {
            members.push(member_under(alloc, "key", pairs)?)?;
            members.push(member_under(alloc, "value", pairs)?)?;
        }
        Kind::Structure | Kind::Union | Kind::Enum | Kind::IntEnum => {
            return Ok(MemberStatements::new(members_under(alloc, pairs)?));
        }
        _ => {}
    }
    Ok(MemberStatements::new(members))
}

// The member that is the field of this name.
fn member_under(
    alloc: Global,
    name: &str,
    pairs: &[(Text, Tree)],
) -> Result<MemberStatement, NoMemory>
    requires { AreJsonMembers (members_of (members_view pairs.now)) }
    ensures { IfOk result (λ said. member_view said ≡ member_there name.now (tree_named name.now (members_of (members_view pairs.now)))) }
{
    match tree_under(pairs, name) {
        Some(tree) => member(alloc, name, pairs_or_none(tree)),
        None => member(alloc, name, &[]),
    }
}

// The members of the field `members`.
fn members_under(alloc: Global, pairs: &[(Text, Tree)]) -> Result<Vec<MemberStatement>, NoMemory>
    requires { AreJsonMembers (members_of (members_view pairs.now)) }
    ensures { IfOk result (λ said. member_statements_view said.items ≡ members_there
        (tree_named members_name (members_of (members_view pairs.now)))) }
{
    match tree_under(pairs, "members") {
        Some(tree) => members(alloc, pairs_or_none(tree)),
        None => Ok(Vec::new(alloc)),
    }
}

fn members(alloc: Global, pairs: &[(Text, Tree)]) -> Result<Vec<MemberStatement>, NoMemory>
    requires { AreJsonMembers (members_of (members_view pairs.now)) }
    ensures { IfOk result (λ said. member_statements_view said.items ≡ members_said (members_of (members_view pairs.now))) }
{
    let mut members = Vec::new(alloc);
    for pair in pairs {
        members.push(member(alloc, pair.0.as_str(), pairs_or_none(&pair.1))?)?;
    }
    Ok(members)
}

// A member with these pairs.
fn member(alloc: Global, name: &str, pairs: &[(Text, Tree)]) -> Result<MemberStatement, NoMemory>
    requires { AreJsonMembers (members_of (members_view pairs.now)) }
    ensures { IfOk result (λ said. member_view said ≡ member_by_pairs name.now (members_of (members_view pairs.now))) }
{
    Ok(MemberStatement {
        name: Text::copy(alloc, name)?,
        target: target(alloc, pairs)?,
        traits: traits_under(alloc, pairs)?,
    })
}
