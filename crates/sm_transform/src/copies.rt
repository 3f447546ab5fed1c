// Copies of the shapes of a graph, of which another graph is made.
ghost use Rattle.std.specs.Prelude.{◌≡◌, ◌+◌, ℕ, IfOk, OnOk, length};
ghost use Rattle.std.specs.FinMap as fin;
ghost use Rattle.std.specs.List.{Contains};
ghost use Rattle.sm_tree.specs.View.{pairs_view};
ghost use Rattle.sm_model.specs.FormedGraph.{IsFormedGraph};
ghost use Rattle.sm_model.specs.GivenView.{given_view, member_given_view, members_given_of, shape_given_view};
ghost use Rattle.sm_model.specs.Graphs.{traits_in};
ghost use Rattle.sm_model.specs.GraphView.{At, IsMemberAt, IsShapeAt, IsShapeNumber, entries_of, maps_of};
ghost use Rattle.sm_model.specs.Reaching.{id_of_number};
ghost use Rattle.sm_transform.specs.steps.Copies.{AreCopiesBelow, AreMemberCopies, IsMemberCopy, IsShapeCopy};

use sm_ids::{ShapeId, member_name};
use sm_model::{Graph, GraphMember, GraphMembers, GraphShape, mark_at};
use sm_tree::{NoMemory, Pairs, Text, copy_pairs, copy_tree};
use std::alloc::Global;

/// A copy of an id.
pub(crate) fn copied_id(alloc: Global, id: &ShapeId) -> Result<ShapeId, NoMemory>
    ensures { IfOk result (λ copy. copy ≡ id.now) }
{
    match ShapeId::new(alloc, &id.as_ref()) {
        Ok(copy) => Ok(copy),
        Err(_) => Err(NoMemory),
    }
}

// Copies of the traits of what stands at a number.
fn copied_traits(alloc: Global, graph: &Graph, number: u32) -> Result<Pairs, NoMemory>
    requires { IsShapeNumber graph.now number }
    ensures { IfOk result (λ traits. At graph.now number (λ id e. fin.entries (traits_in e) ≡ pairs_view traits)) }
{
    let traits = copy_pairs(alloc, graph.traits(number))?;
    Ok(Pairs::new(traits))
}

// A copy of the member at a number.
fn copied_member(alloc: Global, graph: &Graph, number: u32) -> Result<GraphMember, NoMemory>
    requires number { IsShapeNumber graph.now number }
    requires is_member { IsMemberAt graph.now number }
    ensures { IfOk result (λ m. At graph.now number (λ id e. IsMemberCopy (member_given_view m) id e)) }
{
    let name = Text::copy(alloc, member_name(graph.id(number).as_str()))?;
    let target = copied_id(alloc, graph.target_id(number))?;
    let traits = copied_traits(alloc, graph, number)?;
    Ok(GraphMember {
        name,
        target,
        traits,
    })
}

// Copies of the members at these numbers.
fn copied_members(alloc: Global, graph: &Graph, numbers: &[u32]) -> Result<GraphMembers, NoMemory>
    requires numbers { (k : ℕ) → Contains numbers.now k → IsShapeNumber graph.now k }
    requires are_members { (k : ℕ) → Contains numbers.now k → IsMemberAt graph.now k }
    ensures { IfOk result (λ ms. AreMemberCopies graph.now numbers.now (members_given_of ms)) }
{
    let mut members = Vec::with_capacity(alloc, numbers.len())?;
    for number in numbers {
        members.push(copied_member(alloc, graph, *number)?)?;
    }
    Ok(GraphMembers::new(members))
}

// A copy of the shape at a number, with its members.
fn copied_shape(alloc: Global, graph: &Graph, number: u32) -> Result<GraphShape, NoMemory>
    requires formed { IsFormedGraph (maps_of graph.now) }
    requires number { IsShapeNumber graph.now number }
    requires is_shape { IsShapeAt graph.now number }
    ensures { IfOk result (λ s. IsShapeCopy graph.now number (shape_given_view s)) }
{
    let id = copied_id(alloc, graph.id(number))?;
    let members = copied_members(alloc, graph, graph.members(number))?;
    let properties = copy_tree(alloc, graph.properties(number))?;
    let traits = copied_traits(alloc, graph, number)?;
    Ok(GraphShape {
        id,
        kind: graph.kind(number),
        members,
        properties,
        traits,
    })
}

/// Copies of the shapes at marked numbers, with their members.
pub(crate) fn marked_copies(
    alloc: Global,
    graph: &Graph,
    marks: &[bool],
) -> Result<Vec<GraphShape>, NoMemory>
    requires { IsFormedGraph (maps_of graph.now) }
    ensures { IfOk result
        (λ ss. AreCopiesBelow graph.now marks.now (length (entries_of graph.now)) (given_view ss.items)) }
{
    let mut shapes = Vec::new(alloc);
    for number in 0..graph.count() {
        put_copy(alloc, graph, marks, number, &mut shapes)?;
    }
    Ok(shapes)
}

// Appends a copy of what stands at a number, if it is a shape and marked.
fn put_copy(
    alloc: Global,
    graph: &Graph,
    marks: &[bool],
    number: u32,
    shapes: &mut Vec<GraphShape>,
) -> Result<(), NoMemory>
    requires formed { IsFormedGraph (maps_of graph.now) }
    requires number { IsShapeNumber graph.now number }
    requires below { AreCopiesBelow graph.now marks.now number (given_view shapes.old.items) }
    ensures { OnOk result (AreCopiesBelow graph.now marks.now (number + 1) (given_view shapes.new.items)) }
{
    if !mark_at(marks, number) {
        return Ok(());
    }
    if graph.is_member(number) {
        return Ok(());
    }
    shapes.push(copied_shape(alloc, graph, number)?)?;
    Ok(())
}
