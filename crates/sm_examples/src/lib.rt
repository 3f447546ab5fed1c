// Examples of a service's operations (Smithy 2.0, "examples trait"): what the entries of the trait spell for an operation, and the first
// example of an operation with an input, found by halves. Nothing here knows a protocol.
#![tactic(auto)]

mod entries;
mod error_ids;
mod example;
mod examples;
mod finding;
pub mod laws;
mod order;

pub use entries::{example_of_entry, operation_entries};
pub use example::Example;
pub use examples::Examples;
