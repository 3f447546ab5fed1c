// Looking up what stands at a number, told by its id. No look-up takes memory.
ghost use Rattle.std.specs.Prelude.{◌≡◌, ℕ, List, MatchOption, None, Some, map};
ghost use Rattle.std.specs.FinMap as fin;
ghost use Rattle.std.specs.Option.{option_map};
ghost use Rattle.std.specs.Str.{bytes_eq};
ghost use Rattle.sm_tree.specs.View.{node_of};
ghost use Rattle.sm_model.specs.GraphView.{AreShapeNumbers, IsShapeNumber, maps_of};
ghost use Rattle.sm_model.specs.PreludeShapes.{unit_id};
ghost use Rattle.sm_model.specs.Reaching.{id_of_number};
ghost use Rattle.sm_compile.specs.Sound.{trait_of};
ghost use Rattle.sm_compile.specs.Looked.{kind_under, listed_under, target_kind, target_under, targets_unit};

use sm_model::{Graph, Kind};
use sm_tree::Tree;

/// The type of a shape; a member has none.
pub fn kind_of(graph: &Graph, number: u32) -> Option<Kind>
    requires { IsShapeNumber graph.now number }
    ensures { result ≡ kind_under (maps_of graph.now) (id_of_number graph.now number) }
{
    if graph.is_member(number) {
        None
    } else {
        Some(graph.kind(number))
    }
}

/// The numbers of a shape's members, in model order; a member has none.
pub fn members_of(graph: &Graph, number: u32) -> &[u32]
    requires { IsShapeNumber graph.now number }
    ensures ids { map (id_of_number graph.now) result.now ≡ listed_under (maps_of graph.now) (id_of_number graph.now number) }
    ensures numbers { AreShapeNumbers graph.now result.now }
{
    graph.members(number)
}

/// The value of a trait; `None` where what stands there doesn't have it.
pub fn trait_node<'a>(graph: &'a Graph, number: u32, name: &str) -> Option<&'a Tree>
    requires { IsShapeNumber graph.now number }
    ensures { option_map (λ t. node_of t.now) result ≡ trait_of (maps_of graph.now) (id_of_number graph.now number) name.now }
{
    graph.trait_value(number, name)
}

/// The number of what a member targets; `None` where the graph has none of the id that it targets, and at a shape.
pub fn target_of(graph: &Graph, number: u32) -> Option<u32>
    requires { IsShapeNumber graph.now number }
    ensures { MatchOption result
        ((id : List ℕ) → target_under (maps_of graph.now) (id_of_number graph.now number) ≡ Some id
        → fin.get (maps_of graph.now).shapes id ≡ None)
        (λ to. IsShapeNumber graph.now to
        × (target_under (maps_of graph.now) (id_of_number graph.now number) ≡ Some (id_of_number graph.now to))) }
{
    if graph.is_member(number) {
        graph.target(number)
    } else {
        None
    }
}

/// The type of the shape that a member targets, where the graph has it.
pub fn target_kind(graph: &Graph, member: u32) -> Option<Kind>
    requires { IsShapeNumber graph.now member }
    ensures { result ≡ target_kind (maps_of graph.now) (id_of_number graph.now member) }
{
    match target_of(graph, member) {
        Some(target) => kind_of(graph, target),
        None => None,
    }
}

/// Whether a member targets the prelude's unit.
pub fn targets_unit(graph: &Graph, member: u32) -> bool
    requires { IsShapeNumber graph.now member }
    ensures { result ≡ targets_unit (maps_of graph.now) (id_of_number graph.now member) }
{
    if graph.is_member(member) {
        is_unit(graph.target_id(member).as_str())
    } else {
        false
    }
}

fn is_unit(id: &str) -> bool
    ensures { result ≡ bytes_eq id.now unit_id }
{
    id == "smithy.api#Unit"
}

/// The text of an id.
pub fn id_text(graph: &Graph, number: u32) -> &str
    requires { IsShapeNumber graph.now number }
    ensures { result.now ≡ id_of_number graph.now number }
{
    graph.id(number).as_str()
}
