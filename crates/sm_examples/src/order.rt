// The order in which the places of examples are kept.
ghost use Rattle.std.specs.Prelude.{◌≡◌, IfOk, length, map};
ghost use Rattle.std.specs.List.{range_with_len};
ghost use Rattle.std.specs.Ordering.{is_lt, nat_cmp, ordering_then};
ghost use Rattle.sm_shapes.specs.ValueOrder.{val_cmp};
ghost use Rattle.sm_shapes.specs.ValueView.{val_of};
ghost use Rattle.sm_examples.specs.ExampleView.{example_data};
ghost use Rattle.sm_examples.specs.InputOrder.{IsInputOrder, rank, rank_at, rank_cmp};

use crate::example::Example;
use sm_shapes::values::Value;
use sm_tree::NoMemory;
use std::alloc::Global;
use std::cmp::Ordering;

// The order of an example to an operation and an input.
fn order_to(example: &Example, operation: u32, input: &Value) -> Ordering
    ensures { result ≡ ordering_then (nat_cmp example.now.operation operation) (val_cmp (val_of example.now.input) (val_of input.now)) }
{
    match example.operation.cmp(&operation) {
        Ordering::Equal => example.input.compare(input),
        order => order,
    }
}

// An order of what stands at two places; where it is alike, the smaller place comes first.
fn then_by_place(order: Ordering, a: usize, b: usize) -> Ordering
    ensures { result ≡ ordering_then order (nat_cmp a b) }
{
    match order {
        Ordering::Equal => a.cmp(&b),
        order => order,
    }
}

// The order of the examples at two places. Places past the last one come first.
fn order_at(examples: &[Example], a: usize, b: usize) -> Ordering
    ensures { result ≡ rank_cmp (rank_at (map example_data examples.now) a) (rank_at (map example_data examples.now) b) }
{
    match examples.get(a) {
        Some(first) => match examples.get(b) {
            Some(second) => {
                let order = order_to(first, second.operation, &second.input);
                then_by_place(order, a, b)
            }
            None => Ordering::Greater,
        },
        None => match examples.get(b) {
            Some(_) => Ordering::Less,
            None => a.cmp(&b),
        },
    }
}

/// Whether the example at a place comes before all examples of an operation with an input.
pub(crate) fn comes_before(
    examples: &[Example],
    place: usize,
    operation: u32,
    input: &Value,
) -> bool
    ensures { result ≡ is_lt (rank_cmp (rank_at (map example_data examples.now) place) (rank 1 operation (val_of input.now) 0)) }
{
    match examples.get(place) {
        Some(example) => order_to(example, operation, input).is_lt(),
        None => true,
    }
}

// So many places, from the first on.
fn places_of(alloc: Global, count: usize) -> Result<Vec<usize>, NoMemory>
    ensures { IfOk result (λ places. places.items ≡ range_with_len 0 count) }
{
    let mut places = Vec::with_capacity(alloc, count)?;
    for place in 0..count {
        places.push(place)?;
    }
    Ok(places)
}

// These places, by their examples.
fn by_input(examples: &[Example], places: Vec<usize>) -> Vec<usize>
    requires { places.items ≡ range_with_len 0 (length examples.now) }
    ensures { IsInputOrder (map example_data examples.now) result.items }
{
    let mut places = places;
    places.sort_unstable_by(|a, b| order_at(examples, *a, *b));
    places
}

/// All places of examples, by the operation, then by the input, then as they stand. n log n comparisons of inputs.
pub(crate) fn input_order(alloc: Global, examples: &[Example]) -> Result<Vec<usize>, NoMemory>
    ensures { IfOk result (λ places. IsInputOrder (map example_data examples.now) places.items) }
{
    let places = places_of(alloc, examples.len())?;
    Ok(by_input(examples, places))
}
