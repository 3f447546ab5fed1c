// The shapes of a table and their members, as numbers of a graph.
ghost use Rattle.std.specs.Prelude.{◌≡◌, ◌++◌, ◌∷◌, [], IfOk, OnOk, cond, length, map};
ghost use Rattle.sm_model.specs.GraphView.{AreShapeNumbers, IsShapeNumber, entries_of, maps_of};
ghost use Rattle.sm_model.specs.Reaching.{id_of_number};
ghost use Rattle.sm_compile.specs.Compiled.{members_under};
ghost use Rattle.sm_compile.specs.Kinds as kinds;
ghost use Rattle.sm_compile.specs.Tabling as tabling;
ghost use Rattle.sm_compile.specs.Tabling.{has_values_where, tabled_below};
ghost use Rattle.sm_compile.specs.steps.Looked.{listed_under};

use crate::kinds::{has_value_members, has_values};
use crate::look::{kind_of, members_of};
use sm_model::{Graph, Kind};
use sm_tree::NoMemory;
use std::alloc::Global;

/// The numbers of the marked shapes that have values, in order: the shapes of a table. `NoMemory` where memory is refused. Linear in the
/// graph's shapes and members.
pub fn tabled_shapes(alloc: Global, graph: &Graph, marks: &[bool]) -> Result<Vec<u32>, NoMemory>
    requires { length marks.now ≡ length (entries_of graph.now) }
    ensures numbers { IfOk result (λ shapes. AreShapeNumbers graph.now shapes.items) }
    ensures shapes { IfOk result (λ shapes. shapes.items ≡ tabled_below graph.now marks.now (length marks.now)) }
{
    let mut shapes = Vec::new(alloc);
    for number in 0..graph.count() {
        put_tabled(graph, marks, number, &mut shapes)?;
    }
    Ok(shapes)
}

// Appends a number, where it is that of a marked shape that has values.
fn put_tabled(
    graph: &Graph,
    marks: &[bool],
    number: u32,
    shapes: &mut Vec<u32>,
) -> Result<(), NoMemory>
    requires count { length marks.now ≡ length (entries_of graph.now) }
    requires number { IsShapeNumber graph.now number }
    ensures { OnOk result (shapes.new.items
        ≡ shapes.old.items ++ cond (tabling.is_tabled graph.now marks.now number) (number ∷ []) []) }
{
    if is_tabled(graph, marks, number) {
        shapes.push(number)?;
    }
    Ok(())
}

// Whether it is a marked shape that has values.
fn is_tabled(graph: &Graph, marks: &[bool], number: u32) -> bool
    requires count { length marks.now ≡ length (entries_of graph.now) }
    requires number { IsShapeNumber graph.now number }
    ensures { result ≡ tabling.is_tabled graph.now marks.now number }
{
    marks[number as usize] && has_values_where(kind_of(graph, number))
}

fn has_values_where(kind: Option<Kind>) -> bool
    ensures { result ≡ has_values_where kind }
{
    match kind {
        Some(kind) => has_values(kind),
        None => false,
    }
}

/// The numbers of the members at which values of a shape stand, in model order. No memory.
pub fn value_members(graph: &Graph, shape: u32) -> &[u32]
    requires { IsShapeNumber graph.now shape }
    ensures ids { map (id_of_number graph.now) result.now ≡ members_under (maps_of graph.now) (id_of_number graph.now shape) }
    ensures numbers { AreShapeNumbers graph.now result.now }
{
    match kind_of(graph, shape) {
        Some(kind) => members_of_kind(graph, shape, kind),
        None => &[],
    }
}

fn members_of_kind(graph: &Graph, shape: u32, kind: Kind) -> &[u32]
    requires { IsShapeNumber graph.now shape }
    ensures ids { map (id_of_number graph.now) result.now
        ≡ kinds.members_of_kind kind (listed_under (maps_of graph.now) (id_of_number graph.now shape)) }
    ensures numbers { AreShapeNumbers graph.now result.now }
{
    if has_value_members(kind) {
        members_of(graph, shape)
    } else {
        &[]
    }
}
