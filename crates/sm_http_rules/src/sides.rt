// Which shapes stand on the sides of messages of HTTP, as marks.
ghost use Rattle.std.specs.Prelude.{◌≡◌, IfOk, length};
ghost use Rattle.sm_model.specs.GraphView.{IsShapeNumber, entries_of, maps_of};
ghost use Rattle.sm_model.specs.Reaching.{AreMarks, id_of_number};
ghost use Rattle.sm_model.specs.Relations.{IsRelated};
ghost use Rattle.sm_rules.specs.Bindings.{IsHttpOperation};
ghost use Rattle.sm_select.specs.Images.{AreImage};
ghost use Rattle.sm_select.specs.Ways.{AreWays};
ghost use Rattle.sm_http_rules.specs.Sides.{AreSides, MayErr, is_http_operation, may_err};

use sm_compile::trait_ids::HTTP;
use sm_http_traits::carriers::is_own_operation;
use sm_model::{Graph, Relation};
use sm_passes::carried::carries;
use sm_passes::closures::is_own_service;
use sm_passes::marked::{NumberTest, marked_where};
use sm_select::{Ways, image_along, image_of_walk};
use sm_tree::NoMemory;
use std::alloc::Global;

/// The shapes on each side, as marks by their numbers.
#[derive(Drop)]
pub struct Sides {
    /// Inputs of operations with `http`.
    pub inputs: Vec<bool>,
    /// Outputs of operations with `http`.
    pub outputs: Vec<bool>,
    /// Errors of operations with `http`, and of services whose closure has such an operation.
    pub errors: Vec<bool>,
}

// Operations with `http`.
#[derive(Drop)]
struct HttpOperations;

impl NumberTest for HttpOperations {
    ghost passes = { λ test. is_http_operation };

    fn passes(&self, graph: &Graph, number: u32) -> bool {
        is_own_operation(graph, number) && carries(graph, number, HTTP)
    }
}

impl Sides {
    /// The shapes on each side in a graph, by its ways. Each link is looked at a few times.
    pub fn new(alloc: Global, graph: &Graph, ways: &Ways) -> Result<Self, NoMemory>
        requires { AreWays graph.now ways.now }
        ensures { IfOk result (λ sides. AreSides graph.now sides) }
    {
        let operations = marked_where(alloc, graph, &HttpOperations)?;
        let failing = failing(alloc, graph, ways, operations.as_slice())?;
        let inputs = related(alloc, graph, ways, Relation::Input, operations.as_slice())?;
        let outputs = related(alloc, graph, ways, Relation::Output, operations.as_slice())?;
        let errors = related(alloc, graph, ways, Relation::Error, failing.as_slice())?;
        Ok(Sides {
            inputs,
            outputs,
            errors,
        })
    }
}

// Where a relation leads from marked numbers.
fn related(
    alloc: Global,
    graph: &Graph,
    ways: &Ways,
    relation: Relation,
    starts: &[bool],
) -> Result<Vec<bool>, NoMemory>
    requires count { length starts.now ≡ length (entries_of graph.now) }
    requires ways { AreWays graph.now ways.now }
    ensures { IfOk result (λ marks. AreImage graph.now starts.now (IsRelated relation (maps_of graph.now)) marks.items) }
{
    let marks = image_along(alloc, graph, ways, &[relation], false, starts)?;
    Ok(marks)
}

// Operations with `http`, and services whose closure has one.
fn failing(
    alloc: Global,
    graph: &Graph,
    ways: &Ways,
    operations: &[bool],
) -> Result<Vec<bool>, NoMemory>
    requires ways { AreWays graph.now ways.now }
    requires operations { AreMarks (length (entries_of graph.now))
        (λ k. IsHttpOperation (maps_of graph.now) (id_of_number graph.now k)) operations.now }
    ensures { IfOk result (λ marks. AreMarks (length (entries_of graph.now))
        (λ k. MayErr (maps_of graph.now) (id_of_number graph.now k)) marks.items) }
{
    let reaching = image_of_walk(alloc, graph, ways, true, operations)?;
    let mut marks = Vec::with_capacity(alloc, graph.count() as usize)?;
    for number in 0..graph.count() {
        marks.push(may_err(graph, operations, reaching.as_slice(), number))?;
    }
    Ok(marks)
}

fn may_err(graph: &Graph, operations: &[bool], reaching: &[bool], number: u32) -> bool
    requires number { IsShapeNumber graph.now number }
    requires operations { length operations.now ≡ length (entries_of graph.now) }
    requires reaching { length reaching.now ≡ length (entries_of graph.now) }
    ensures { result ≡ may_err graph.now operations.now reaching.now number }
{
    operations[number as usize] || (reaching[number as usize] && is_own_service(graph, number))
}
