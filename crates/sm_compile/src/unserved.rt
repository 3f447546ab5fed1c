// Which shapes aren't served by themselves: those of types that are left out, those that stream, and those that tell their type.
ghost use Rattle.std.specs.Prelude.{◌≡◌, ◌↔◌, IsTrue, Some, map};
ghost use Rattle.sm_model.specs.GraphView.{AreShapeNumbers, IsShapeNumber, maps_of};
ghost use Rattle.sm_model.specs.Reaching.{id_of_number};
ghost use Rattle.sm_compile.specs.Kinds.{is_left_out};
ghost use Rattle.sm_compile.specs.Served.{IsUnserved, type_name};
ghost use Rattle.sm_compile.specs.steps.Looked.{kind_under};
ghost use Rattle.sm_compile.specs.steps.Unserved.{NamesType, TellsType, may_tell_type};

use crate::kinds::table_kind;
use crate::look::{kind_of, members_of};
use crate::names::{json_name, member_name};
use crate::seen::has_trait;
use crate::trait_ids::STREAMING;
use sm_model::{Graph, Kind};
use sm_shapes::kinds::ShapeKind;

/// Whether a shape isn't served by itself. It isn't so of a member. Linear in its members.
pub fn is_unserved(graph: &Graph, shape: u32) -> bool
    requires { IsShapeNumber graph.now shape }
    ensures { IsTrue result ↔ IsUnserved (maps_of graph.now) (id_of_number graph.now shape) }
{
    match kind_of(graph, shape) {
        Some(kind) => is_unserved_of_kind(graph, shape, kind),
        None => false,
    }
}

// Whether a shape of this type isn't served by itself.
fn is_unserved_of_kind(graph: &Graph, shape: u32, kind: Kind) -> bool
    requires number { IsShapeNumber graph.now shape }
    requires kind { kind_under (maps_of graph.now) (id_of_number graph.now shape) ≡ Some kind }
    ensures { IsTrue result ↔ IsUnserved (maps_of graph.now) (id_of_number graph.now shape) }
{
    if is_left_out(table_kind(kind)) {
        true
    } else if has_trait(graph, shape, STREAMING) {
        true
    } else if may_tell_type(kind) {
        tells_type(graph, shape, members_of(graph, shape))
    } else {
        false
    }
}

/// Whether a table leaves shapes of a kind out. No memory.
pub fn is_left_out(kind: ShapeKind) -> bool
    ensures { result ≡ is_left_out kind }
{
    match kind {
        ShapeKind::LeftOut => true,
        _ => false,
    }
}

// Whether a message tells its type at a member of a shape of this type.
fn may_tell_type(kind: Kind) -> bool
    ensures { result ≡ may_tell_type kind }
{
    match kind {
        Kind::Structure | Kind::Union => true,
        _ => false,
    }
}

// Whether one of these members of a shape has the name under which a message tells its type.
fn tells_type(graph: &Graph, shape: u32, members: &[u32]) -> bool
    requires number { IsShapeNumber graph.now shape }
    requires numbers { AreShapeNumbers graph.now members.now }
    ensures { IsTrue result ↔ TellsType (maps_of graph.now) (id_of_number graph.now shape)
        (map (id_of_number graph.now) members.now) }
{
    for member in members {
        if names_type(graph, shape, *member) {
            return true;
        }
    }
    false
}

fn names_type(graph: &Graph, shape: u32, member: u32) -> bool
    requires shape { IsShapeNumber graph.now shape }
    requires member { IsShapeNumber graph.now member }
    ensures { IsTrue result ↔ NamesType (maps_of graph.now) (id_of_number graph.now shape) (id_of_number graph.now member) }
{
    match member_name(graph, shape, member) {
        Some(name) => is_type_name(name) || is_type_name(json_name(graph, member, name)),
        None => false,
    }
}

fn is_type_name(name: &str) -> bool
    ensures { IsTrue result ↔ (name.now ≡ type_name) }
{
    name == "__type"
}
