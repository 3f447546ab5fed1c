// Members that are written, by their numbers in the graph.
ghost use Rattle.std.specs.Prelude.{◌≡◌, ◌++◌, [], map, get_or, OnOk};
ghost use Rattle.sm_tree.specs.View.{members_view};
ghost use Rattle.sm_model.specs.GraphView.{AreShapeNumbers, ids, IsShapeNumber, maps_of};
ghost use Rattle.sm_idl.specs.Written.{member_lines, member_text, target_part};
ghost use Rattle.sm_idl.specs.steps.Writing.{member_at};

use super::put::put;
use super::traits::put_traits;
use sm_ids::member_name;
use sm_model::Graph;
use sm_tree::{NoMemory, Text, Tree};
use std::alloc::Global;

/// Puts members in order, with their targets or by their names alone.
pub(crate) fn put_members(
    alloc: Global,
    graph: &Graph,
    members: &[u32],
    targets: bool,
    out: &mut Vec<u8>,
) -> Result<(), NoMemory>
    requires { AreShapeNumbers graph.now members.now }
    ensures { OnOk result (out.new.items
        ≡ out.old.items ++ member_lines targets (maps_of graph.now).shapes (map (λ k. get_or (ids graph.now) k []) members.now)) }
{
    for member in members {
        put_member(alloc, graph, *member, targets, out)?;
    }
    Ok(())
}

fn put_member(
    alloc: Global,
    graph: &Graph,
    member: u32,
    targets: bool,
    out: &mut Vec<u8>,
) -> Result<(), NoMemory>
    requires { IsShapeNumber graph.now member }
    ensures { OnOk result (out.new.items
        ≡ out.old.items ++ member_at targets (maps_of graph.now).shapes (get_or (ids graph.now) member [])) }
{
    if graph.is_member(member) {
        let id = graph.id(member).as_str();
        let target = graph.target_id(member).as_str();
        let name = member_name(id);
        return put_named_member(alloc, graph.traits(member), name, targets, target, out);
    }
    Ok(())
}

fn put_named_member(
    alloc: Global,
    traits: &[(Text, Tree)],
    name: &str,
    targets: bool,
    target: &str,
    out: &mut Vec<u8>,
) -> Result<(), NoMemory>
    ensures { OnOk result (out.new.items ≡ out.old.items ++ member_text targets name.now target.now (members_view traits.now)) }
{
    put_traits(alloc, "    ", traits, out)?;
    put("    ", out)?;
    put(name, out)?;
    put_target(targets, target, out)?;
    put("\n", out)
}

fn put_target(targets: bool, target: &str, out: &mut Vec<u8>) -> Result<(), NoMemory>
    ensures { OnOk result (out.new.items ≡ out.old.items ++ target_part targets target.now) }
{
    if targets {
        put(": ", out)?;
        put(target, out)
    } else {
        Ok(())
    }
}
