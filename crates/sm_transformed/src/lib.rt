// Models that are transformed: a change of a model's graph, and what the rules say of what it makes.
#![tactic(auto)]

mod change;
mod judging;
pub mod laws;
mod transforming;

pub use change::{Transform, TransformRefusal};
pub use transforming::transform;
