// Members that are written, by their numbers in the graph.
ghost use Rattle.std.specs.Prelude.{◌≡◌, ◌++◌, [], map, get_or, IfOk, OnOk, Some};
ghost use Rattle.sm_tree.specs.View.{node_of, members_view};
ghost use Rattle.sm_model.specs.GraphView.{AreShapeNumbers, At, ids, IsMemberAt, IsShapeNumber, maps_of};
ghost use Rattle.sm_ast.specs.Written.{member_object, member_there, written_member, written_members};

use super::field::{put_field, put_text, put_traits};
use sm_ids::member_name;
use sm_model::Graph;
use sm_tree::{NoMemory, Pairs, Text, Tree};
use std::alloc::Global;

/// Puts members by their names, in order.
pub(crate) fn put_members(
    alloc: Global,
    graph: &Graph,
    members: &[u32],
    fields: &mut Vec<(Text, Tree)>,
) -> Result<(), NoMemory>
    requires { AreShapeNumbers graph.now members.now }
    ensures { OnOk result (members_view fields.new.items
        ≡ members_view fields.old.items ++ written_members (maps_of graph.now).shapes (map (λ k. get_or (ids graph.now) k []) members.now)) }
{
    for member in members {
        put_member(alloc, graph, *member, fields)?;
    }
    Ok(())
}

fn put_member(
    alloc: Global,
    graph: &Graph,
    member: u32,
    fields: &mut Vec<(Text, Tree)>,
) -> Result<(), NoMemory>
    requires { IsShapeNumber graph.now member }
    ensures { OnOk result (members_view fields.new.items
        ≡ members_view fields.old.items ++ member_there (maps_of graph.now).shapes (get_or (ids graph.now) member [])) }
{
    if graph.is_member(member) {
        let tree = member_tree(alloc, graph, member)?;
        let name = member_name(graph.id(member).as_str());
        put_field(alloc, name, tree, fields)?;
        Ok(())
    } else {
        Ok(())
    }
}

fn member_tree(alloc: Global, graph: &Graph, member: u32) -> Result<Tree, NoMemory>
    requires number { IsShapeNumber graph.now member }
    requires is_member { IsMemberAt graph.now member }
    ensures { IfOk result (λ tree. At graph.now member (λ id e. written_member e ≡ Some (node_of tree))) }
{
    let target = graph.target_id(member).as_str();
    written(alloc, target, graph.traits(member))
}

fn written(alloc: Global, target: &str, traits: &[(Text, Tree)]) -> Result<Tree, NoMemory>
    ensures { IfOk result (λ tree. node_of tree ≡ member_object target.now (members_view traits.now)) }
{
    let mut fields = Vec::new(alloc);
    put_text(alloc, "target", target, &mut fields)?;
    put_traits(alloc, traits, &mut fields)?;
    Ok(Tree::Object(Pairs::new(fields)))
}
