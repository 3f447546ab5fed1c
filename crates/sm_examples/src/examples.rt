// Examples of operations, and their order.
ghost use Rattle.std.specs.Prelude.{map};
ghost use Rattle.std.proofs.Props.{props};
ghost use Rattle.sm_examples.specs.ExampleView.{example_data};
ghost use Rattle.sm_examples.specs.InputOrder.{IsInputOrder};

use crate::example::Example;

/// Examples of operations, of which the first one of an operation with an input is found by halves. Contracts see the list, by
/// `examples_view`.
#[derive(Debug, Drop)]
pub struct Examples {
    // In the order in which they count.
    pub(crate) examples: Vec<Example>,
    // Their places, by the operation, then by the input, then as they stand.
    pub(crate) by_input: Vec<usize>,
    ghost ordered: { IsInputOrder (map example_data examples.items) by_input.items } by { Prim.hlevel props },
}
