// The errors to which operations and services refer, as rows.
ghost use Rattle.std.specs.Prelude.{◌≡◌, ◌<◌, ◌^◌, ℕ, ℤ, IfOk, [], codes, length, pos};
ghost use Rattle.std.specs.List.{Contains};
ghost use Rattle.std.specs.List.Sorted.{IsStrictlySortedBy};
ghost use Rattle.std.specs.Option.{option_map, unwrap_or};
ghost use Rattle.std.specs.Ordering.{nat_cmp};
ghost use Rattle.std.specs.Str.{bytes_eq};
ghost use Rattle.sm_model.specs.GraphView.{IsShapeNumber, maps_of};
ghost use Rattle.sm_model.specs.Reaching.{id_of_number};
ghost use Rattle.sm_compile.specs.Sound.{trait_of};
ghost use Rattle.sm_compile.specs.TraitIds.{error_id, http_error_id};
ghost use Rattle.sm_compile.specs.TraitNodes.{number_of, text_of};
ghost use Rattle.sm_compile.specs.steps.Numbered.{numbering};
ghost use Rattle.sm_service.specs.Compiled.{SaysError};
ghost use Rattle.sm_service.specs.steps.ErrorReads.{IsStatusWord};

use crate::error::ErrorShape;
use sm_compile::trait_ids::{ERROR, HTTP_ERROR};
use sm_compile::{number_of, row_at, text_in_trait, trait_node};
use sm_ids::ShapeId;
use sm_model::Graph;
use sm_tree::NoMemory;
use std::alloc::Global;

/// The row of the error at a number of a graph, in a table of these shapes.
pub(crate) fn error_row(
    alloc: Global,
    graph: &Graph,
    shapes: &[u32],
    number: u32,
) -> Result<ErrorShape, NoMemory>
    requires number { IsShapeNumber graph.now number }
    requires few { length shapes.now < 2 ^ 32 }
    requires rise { IsStrictlySortedBy nat_cmp shapes.now }
    requires there { Contains shapes.now number }
    requires status { IsStatusWord (number_of (trait_of (maps_of graph.now) (id_of_number graph.now number) http_error_id)) }
    ensures { IfOk result (λ row.
        SaysError (maps_of graph.now) (numbering graph.now shapes.now) (id_of_number graph.now number) row) }
{
    let id = id_copy(alloc, graph, number)?;
    Ok(ErrorShape {
        id,
        shape: row_at(shapes, number),
        client: is_client(graph, number),
        status: status_of(graph, number),
    })
}

/// A copy of the id at a number.
pub(crate) fn id_copy(alloc: Global, graph: &Graph, number: u32) -> Result<ShapeId, NoMemory>
    requires { IsShapeNumber graph.now number }
    ensures { IfOk result (λ id. id ≡ id_of_number graph.now number) }
{
    match ShapeId::new(alloc, &graph.id(number).as_ref()) {
        Ok(copy) => Ok(copy),
        Err(_) => Err(NoMemory),
    }
}

// Whether its `error` is `client`.
fn is_client(graph: &Graph, number: u32) -> bool
    requires { IsShapeNumber graph.now number }
    ensures { result ≡ bytes_eq
        (unwrap_or (text_of (trait_of (maps_of graph.now) (id_of_number graph.now number) error_id)) []) (codes "client") }
{
    match text_in_trait(trait_node(graph, number, ERROR)) {
        Some(text) => text == "client",
        None => false,
    }
}

// The status of its `httpError`.
fn status_of(graph: &Graph, number: u32) -> Option<u16>
    requires number { IsShapeNumber graph.now number }
    requires status { IsStatusWord (number_of (trait_of (maps_of graph.now) (id_of_number graph.now number) http_error_id)) }
    ensures { option_map pos result ≡ number_of (trait_of (maps_of graph.now) (id_of_number graph.now number) http_error_id) }
{
    match number_of(trait_node(graph, number, HTTP_ERROR)) {
        Some(status) => Some(status as u16),
        None => None,
    }
}
