// Examples in their order, and the first one of an operation with an input.
ghost use Rattle.std.specs.Prelude.{◌≡◌, ◌↔◌, IfOk, IsTrue, MatchOption, Some, map, slice_get};
ghost use Rattle.sm_shapes.specs.ValueView.{val_of};
ghost use Rattle.sm_examples.specs.ExampleData.{ExampleData};
ghost use Rattle.sm_examples.specs.ExampleView.{example_data};
ghost use Rattle.sm_examples.specs.ExamplesView.{examples_view};
ghost use Rattle.sm_examples.specs.FirstExamples.{IsFirstFor, IsFor, NoneIsFor};
ghost use Rattle.sm_examples.specs.InputOrder.{IsInputOrder};

use crate::example::Example;
use crate::examples::Examples;
use crate::order::{comes_before, input_order};
use sm_shapes::values::Value;
use sm_tree::NoMemory;
use std::alloc::Global;

fn is_for(example: &Example, operation: u32, input: &Value) -> bool
    ensures { IsTrue result ↔ IsFor operation (val_of input.now) (example_data example.now) }
{
    example.operation == operation && example.input.is_same(input)
}

// The example at a place, where it is one of the operation with the input.
fn example_for<'a>(
    examples: &'a [Example],
    place: usize,
    operation: u32,
    input: &Value,
) -> Option<&'a Example>
    ensures { MatchOption result
        ((e : ExampleData) → slice_get (map example_data examples.now) place ≡ Some e → IsFor operation (val_of input.now) e → ⊥)
        (λ e. (slice_get (map example_data examples.now) place ≡ Some (example_data e.now))
        × IsFor operation (val_of input.now) (example_data e.now)) }
{
    match examples.get(place) {
        Some(example) => {
            if is_for(example, operation, input) {
                Some(example)
            } else {
                None
            }
        }
        None => None,
    }
}

// The first example of an operation with an input, by their places in order.
fn first_example<'a>(
    examples: &'a [Example],
    places: &[usize],
    operation: u32,
    input: &Value,
) -> Option<&'a Example>
    requires { IsInputOrder (map example_data examples.now) places.now }
    ensures { MatchOption result (NoneIsFor (map example_data examples.now) operation (val_of input.now))
        (λ e. IsFirstFor (map example_data examples.now) operation (val_of input.now) (example_data e.now)) }
{
    let at = places.partition_point(|place| comes_before(examples, *place, operation, input));
    match places.get(at) {
        Some(place) => example_for(examples, *place, operation, input),
        None => None,
    }
}

impl Examples {
    /// Examples, in the order in which they count. n log n comparisons of inputs.
    ///
    /// # Errors
    ///
    /// `NoMemory`.
    pub fn new(alloc: Global, examples: Vec<Example>) -> Result<Self, NoMemory>
        ensures { IfOk result (λ all. examples_view all ≡ map example_data examples.items) }
    {
        let by_input = input_order(alloc, examples.as_slice())?;
        Ok(Examples { examples, by_input })
    }

    /// The examples, in order. No memory.
    pub fn as_slice(&self) -> &[Example]
        ensures { map example_data result.now ≡ examples_view self.now }
    {
        self.examples.as_slice()
    }

    /// The first example of an operation with an input; `None` where there is none. log n comparisons of inputs, and no memory.
    pub fn first(&self, operation: u32, input: &Value) -> Option<&Example>
        ensures { MatchOption result (NoneIsFor (examples_view self.now) operation (val_of input.now))
            (λ e. IsFirstFor (examples_view self.now) operation (val_of input.now) (example_data e.now)) }
    {
        first_example(
            self.examples.as_slice(),
            self.by_input.as_slice(),
            operation,
            input,
        )
    }
}
