// The operations of a service, by their numbers in the graph.
ghost use Rattle.std.specs.Prelude.{◌≡◌, ◌++◌, ◌∷◌, [], IfOk, OnOk, cond, length, map};
ghost use Rattle.sm_ids.specs.TextParts.{name_part};
ghost use Rattle.sm_model.specs.GraphView.{AreShapeNumbers, IsShapeNumber, entries_of, maps_of};
ghost use Rattle.sm_model.specs.Graphs.{text_cmp};
ghost use Rattle.sm_model.specs.Reaching.{AreMarks, id_of_number};
ghost use Rattle.sm_rules.specs.Ready.{IsOfService, Ready};
ghost use Rattle.sm_rules.specs.Words.{IsService};
ghost use Rattle.sm_shapes.specs.InOrder.{AreByName};
ghost use Rattle.sm_shapes.specs.Names.{AllDiffer};
ghost use Rattle.sm_service.specs.steps.OperationRows as rows;
ghost use Rattle.sm_service.specs.steps.OperationRows.{AreOperationNumbers, name_of_number, operations_below};

use sm_compile::id_text;
use sm_http_traits::carriers::is_own_operation;
use sm_ids::{namespace_and_name, without_member};
use sm_model::Graph;
use sm_tree::NoMemory;
use std::alloc::Global;
use std::cmp::Ordering;

/// The numbers of the operations of a service, whose closure is marked, in the order of their names. n log n.
pub(crate) fn operation_numbers(
    alloc: Global,
    graph: &Graph,
    service: u32,
    marks: &[bool],
) -> Result<Vec<u32>, NoMemory>
    requires service { IsService (maps_of graph.now) (id_of_number graph.now service) }
    requires ready { Ready (maps_of graph.now) (id_of_number graph.now service) }
    requires marks { AreMarks (length (entries_of graph.now))
        (λ k. IsOfService (maps_of graph.now) (id_of_number graph.now service) (id_of_number graph.now k)) marks.now }
    ensures { IfOk result (λ numbers. AreOperationNumbers graph.now (id_of_number graph.now service) numbers.items) }
{
    let numbers = marked_operations(alloc, graph, marks)?;
    Ok(by_name(graph, numbers))
}

// The numbers of the marked operations, in order.
fn marked_operations(alloc: Global, graph: &Graph, marks: &[bool]) -> Result<Vec<u32>, NoMemory>
    requires { length marks.now ≡ length (entries_of graph.now) }
    ensures numbers { IfOk result (λ numbers. AreShapeNumbers graph.now numbers.items) }
    ensures are { IfOk result (λ numbers. numbers.items ≡ operations_below graph.now marks.now (length marks.now)) }
{
    let mut numbers = Vec::new(alloc);
    for number in 0..graph.count() {
        put_operation(graph, marks, number, &mut numbers)?;
    }
    Ok(numbers)
}

// Appends a number, where it is that of a marked operation.
fn put_operation(
    graph: &Graph,
    marks: &[bool],
    number: u32,
    numbers: &mut Vec<u32>,
) -> Result<(), NoMemory>
    requires count { length marks.now ≡ length (entries_of graph.now) }
    requires number { IsShapeNumber graph.now number }
    ensures { OnOk result (numbers.new.items
        ≡ numbers.old.items ++ cond (rows.is_marked_operation graph.now marks.now number) (number ∷ []) []) }
{
    if marks[number as usize] && is_own_operation(graph, number) {
        numbers.push(number)?;
    }
    Ok(())
}

// Numbers of shapes whose names differ, in the order of these.
fn by_name(graph: &Graph, numbers: Vec<u32>) -> Vec<u32>
    requires numbers { AreShapeNumbers graph.now numbers.items }
    requires differ { AllDiffer (map (name_of_number graph.now) numbers.items) }
    ensures { AreByName (name_of_number graph.now) numbers.items result.items }
{
    let mut numbers = numbers;
    numbers.sort_unstable_by(|a, b| order_of(name_at(graph, *a), name_at(graph, *b)));
    numbers
}

/// The name of the shape at a number, without a namespace; the empty text behind the last one. No memory.
pub(crate) fn name_at(graph: &Graph, number: u32) -> &str
    ensures { result.now ≡ name_of_number graph.now number }
{
    if number < graph.count() {
        name_of(id_text(graph, number))
    } else {
        ""
    }
}

/// The name of a shape by its id. No memory.
pub(crate) fn name_of(id: &str) -> &str
    ensures { result.now ≡ name_part id.now }
{
    without_member(namespace_and_name(id).1)
}

fn order_of(a: &str, b: &str) -> Ordering
    ensures { result ≡ text_cmp a.now b.now }
{
    a.cmp(b)
}
