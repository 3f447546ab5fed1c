// Shapes that are written, by their numbers in the graph.
ghost use Rattle.std.specs.Prelude.{◌≡◌, ◌++◌, [], map, get_or, IfOk, OnOk};
ghost use Rattle.sm_tree.specs.View.{node_of, members_view};
ghost use Rattle.sm_model.specs.Kinds.{member_form};
ghost use Rattle.sm_model.specs.GraphView.{AreShapeNumbers, At, entries_of, ids, IsShapeAt, IsShapeNumber, maps_of};
ghost use Rattle.sm_ast.specs.Written.{field_there, shape_object, written_in_form, written_members, written_shapes, written_statement};
ghost use Rattle.sm_ast.specs.PartsSaid.{pairs_said};
ghost use Rattle.sm_ast.specs.steps.Writing.{IsWrittenShape};

use super::field::{put_field, put_object, put_text, put_traits};
use super::member::put_members;
use super::property::put_properties;
use sm_model::{Graph, Kind, is_in_prelude};
use sm_tree::{NoMemory, Pairs, Text, Tree};
use std::alloc::Global;

/// The shapes outside the prelude by their ids, in order.
pub(crate) fn shape_pairs(alloc: Global, graph: &Graph) -> Result<Vec<(Text, Tree)>, NoMemory>
    ensures { IfOk result (λ pairs. members_view pairs.items ≡ written_shapes (maps_of graph.now).shapes (entries_of graph.now)) }
{
    let mut shapes = Vec::new(alloc);
    for number in 0..graph.count() {
        put_shape(alloc, graph, number, &mut shapes)?;
    }
    Ok(shapes)
}

// Puts what stands at a number, where it is a shape outside the prelude.
fn put_shape(
    alloc: Global,
    graph: &Graph,
    number: u32,
    shapes: &mut Vec<(Text, Tree)>,
) -> Result<(), NoMemory>
    requires { IsShapeNumber graph.now number }
    ensures { OnOk result (At graph.now number (λ id e. members_view shapes.new.items
        ≡ members_view shapes.old.items ++ field_there id (written_statement (maps_of graph.now).shapes id e))) }
{
    if graph.is_member(number) {
        return Ok(());
    }
    let id = graph.id(number).as_str();
    if is_in_prelude(id) {
        return Ok(());
    }
    let tree = shape_tree(alloc, graph, number)?;
    put_field(alloc, id, tree, shapes)?;
    Ok(())
}

fn shape_tree(alloc: Global, graph: &Graph, number: u32) -> Result<Tree, NoMemory>
    requires number { IsShapeNumber graph.now number }
    requires is_shape { IsShapeAt graph.now number }
    ensures { IfOk result (λ tree. At graph.now number (λ id e. IsWrittenShape (maps_of graph.now).shapes (node_of tree) e)) }
{
    let kind = graph.kind(number);
    let members = graph.members(number);
    let body = graph.properties(number);
    written(alloc, graph, kind, members, body, graph.traits(number))
}

fn written(
    alloc: Global,
    graph: &Graph,
    kind: Kind,
    members: &[u32],
    body: &Tree,
    traits: &[(Text, Tree)],
) -> Result<Tree, NoMemory>
    requires { AreShapeNumbers graph.now members.now }
    ensures { IfOk result (λ tree. node_of tree
        ≡ shape_object kind (written_members (maps_of graph.now).shapes (map (λ k. get_or (ids graph.now) k []) members.now))
        (pairs_said (node_of body.now)) (members_view traits.now)) }
{
    let mut fields = Vec::new(alloc);
    put_text(alloc, "type", kind.name(), &mut fields)?;
    put_members_of_kind(alloc, graph, kind, members, &mut fields)?;
    put_properties(alloc, kind, body, &mut fields)?;
    put_traits(alloc, traits, &mut fields)?;
    Ok(Tree::Object(Pairs::new(fields)))
}

// Puts members as a shape of this type has them: as fields of their own, or in the field `members`.
fn put_members_of_kind(
    alloc: Global,
    graph: &Graph,
    kind: Kind,
    members: &[u32],
    fields: &mut Vec<(Text, Tree)>,
) -> Result<(), NoMemory>
    requires { AreShapeNumbers graph.now members.now }
    ensures { OnOk result (members_view fields.new.items
        ≡ members_view fields.old.items
        ++ written_in_form (member_form kind) (written_members (maps_of graph.now).shapes (map (λ k. get_or (ids graph.now) k []) members.now))) }
{
    match kind {
        Kind::List | Kind::Map => put_members(alloc, graph, members, fields),
        Kind::Structure | Kind::Union | Kind::Enum | Kind::IntEnum => {
            let mut pairs = Vec::new(alloc);
            put_members(alloc, graph, members, &mut pairs)?;
            put_object(alloc, "members", pairs, fields)
        }
        _ => Ok(()),
    }
}
