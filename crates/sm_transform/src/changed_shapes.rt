// Shapes of a graph where ids become others or are gone, of which another graph is made.
ghost use Rattle.std.specs.Prelude.{◌≡◌, ◌+◌, ◌++◌, [], ℕ, IfOk, OnOk, length};
ghost use Rattle.std.specs.FinMap as fin;
ghost use Rattle.std.specs.List.{Contains, cons_option, filter_map};
ghost use Rattle.std.specs.Option.{option_map};
ghost use Rattle.sm_tree.specs.View.{pairs_view};
ghost use Rattle.sm_model.specs.FormedGraph.{IsFormedGraph};
ghost use Rattle.sm_model.specs.GivenView.{given_view, member_given_view, members_given_of, members_given_view, shape_given_view};
ghost use Rattle.sm_model.specs.Graphs.{traits_in};
ghost use Rattle.sm_model.specs.GraphView.{At, IsMemberAt, IsShapeAt, IsShapeNumber, entries_of, maps_of};
ghost use Rattle.sm_transform.specs.Changed.{IsMadeOf};
ghost use Rattle.sm_transform.specs.IdChanges.{entry_after, id_after, trait_after};
ghost use Rattle.sm_transform.specs.steps.Changing.{AreMembersAfter, AreShapesAfter, IsLeft, IsMemberAfter, IsSafeFor, IsShapeAfter};

use crate::changed_body::{changed_body, changed_keyed};
use crate::copies::copied_id;
use crate::ids::ChangesIds;
use sm_ids::{ShapeId, member_name};
use sm_model::{Graph, GraphMember, GraphMembers, GraphShape};
use sm_tree::{NoMemory, Pairs, Text, copy_pairs};
use std::alloc::Global;

// What becomes of an id that must stand: one that is gone stays.
fn changed_id<C: ChangesIds>(alloc: Global, change: &C, id: &ShapeId) -> Result<ShapeId, NoMemory>
    ensures { IfOk result (λ new. new ≡ id_after (C.after change.now) id.now) }
{
    let found = change.id(alloc, id)?;
    match found {
        Some(new) => Ok(new),
        None => copied_id(alloc, id),
    }
}

// What is left of the traits of what stands at a number.
fn changed_traits<C: ChangesIds>(
    alloc: Global,
    graph: &Graph,
    change: &C,
    number: u32,
) -> Result<Pairs, NoMemory>
    requires { IsShapeNumber graph.now number }
    ensures { IfOk result (λ traits. At graph.now number
        (λ id e. filter_map (trait_after (C.after change.now)) (fin.entries (traits_in e)) ≡ pairs_view traits)) }
{
    let traits = changed_keyed(alloc, change, graph.traits(number))?;
    Ok(Pairs::new(traits))
}

// What becomes of the member at a number; `None` where it is gone.
fn changed_member<C: ChangesIds>(
    alloc: Global,
    graph: &Graph,
    change: &C,
    number: u32,
) -> Result<Option<GraphMember>, NoMemory>
    requires number { IsShapeNumber graph.now number }
    requires is_member { IsMemberAt graph.now number }
    ensures { IfOk result (λ found. At graph.now number
        (λ id e. IsMemberAfter (C.after change.now) (option_map member_given_view found) id e)) }
{
    if !change.keeps(graph.id(number).as_str()) {
        return Ok(None);
    }
    let name = Text::copy(alloc, member_name(graph.id(number).as_str()))?;
    let target = changed_id(alloc, change, graph.target_id(number))?;
    let traits = changed_traits(alloc, graph, change, number)?;
    Ok(Some(GraphMember {
        name,
        target,
        traits,
    }))
}

// What is left of the members at these numbers.
fn changed_members<C: ChangesIds>(
    alloc: Global,
    graph: &Graph,
    change: &C,
    numbers: &[u32],
) -> Result<GraphMembers, NoMemory>
    requires numbers { (k : ℕ) → Contains numbers.now k → IsShapeNumber graph.now k }
    requires are_members { (k : ℕ) → Contains numbers.now k → IsMemberAt graph.now k }
    ensures { IfOk result (λ ms. AreMembersAfter (C.after change.now) graph.now numbers.now (members_given_of ms)) }
{
    let mut members = Vec::new(alloc);
    for number in numbers {
        let found = changed_member(alloc, graph, change, *number)?;
        put_member(found, &mut members)?;
    }
    Ok(GraphMembers::new(members))
}

fn put_member(found: Option<GraphMember>, members: &mut Vec<GraphMember>) -> Result<(), NoMemory>
    ensures { OnOk result (members_given_view members.new.items
        ≡ members_given_view members.old.items ++ cons_option (option_map member_given_view found) []) }
{
    match found {
        Some(member) => {
            members.push(member)?;
            Ok(())
        }
        None => Ok(()),
    }
}

// What becomes of the shape at a number.
fn changed_shape<C: ChangesIds>(
    alloc: Global,
    graph: &Graph,
    change: &C,
    number: u32,
) -> Result<GraphShape, NoMemory>
    requires formed { IsFormedGraph (maps_of graph.now) }
    requires number { IsShapeNumber graph.now number }
    requires is_shape { IsShapeAt graph.now number }
    ensures { IfOk result (λ s. IsShapeAfter (C.after change.now) graph.now number (shape_given_view s)) }
{
    let kind = graph.kind(number);
    let id = changed_id(alloc, change, graph.id(number))?;
    let members = changed_members(alloc, graph, change, graph.members(number))?;
    let properties = changed_body(alloc, change, kind, graph.properties(number))?;
    let traits = changed_traits(alloc, graph, change, number)?;
    Ok(GraphShape {
        id,
        kind,
        members,
        properties,
        traits,
    })
}

// Appends what becomes of what stands at a number, if it is a shape and isn't gone.
fn put_shape<C: ChangesIds>(
    alloc: Global,
    graph: &Graph,
    change: &C,
    number: u32,
    shapes: &mut Vec<GraphShape>,
) -> Result<(), NoMemory>
    requires formed { IsFormedGraph (maps_of graph.now) }
    requires safe { IsSafeFor (maps_of graph.now) (C.after change.now) }
    requires number { IsShapeNumber graph.now number }
    requires below { AreShapesAfter (C.after change.now) graph.now number (given_view shapes.old.items) }
    ensures { OnOk result (AreShapesAfter (C.after change.now) graph.now (number + 1) (given_view shapes.new.items)) }
{
    if !change.keeps(graph.id(number).as_str()) {
        return Ok(());
    }
    if graph.is_member(number) {
        return Ok(());
    }
    shapes.push(changed_shape(alloc, graph, change, number)?)?;
    Ok(())
}

// What becomes of all shapes.
fn changed_shapes<C: ChangesIds>(
    alloc: Global,
    graph: &Graph,
    change: &C,
) -> Result<Vec<GraphShape>, NoMemory>
    requires formed { IsFormedGraph (maps_of graph.now) }
    requires safe { IsSafeFor (maps_of graph.now) (C.after change.now) }
    ensures { IfOk result
        (λ ss. AreShapesAfter (C.after change.now) graph.now (length (entries_of graph.now)) (given_view ss.items)) }
{
    let mut shapes = Vec::new(alloc);
    for number in 0..graph.count() {
        put_shape(alloc, graph, change, number, &mut shapes)?;
    }
    Ok(shapes)
}

/// The graph that is left where ids become others or are gone. The metadata stays. n log n.
pub(crate) fn changed_graph<C: ChangesIds>(
    alloc: Global,
    graph: &Graph,
    change: &C,
) -> Result<Graph, NoMemory>
    requires formed { IsFormedGraph (maps_of graph.now) }
    requires safe { IsSafeFor (maps_of graph.now) (C.after change.now) }
    ensures { IfOk result (λ h. IsMadeOf (IsLeft (C.after change.now)) (id_after (C.after change.now))
        (entry_after (C.after change.now)) (maps_of graph.now) (maps_of h)) }
{
    let shapes = changed_shapes(alloc, graph, change)?;
    let metadata = copy_pairs(alloc, graph.metadata())?;
    Graph::build(alloc, shapes, metadata)
}
