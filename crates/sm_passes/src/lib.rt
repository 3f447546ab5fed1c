// What the passes of rules of models have in common: how events are put, walks over the numbers of a graph, tests of what stands there,
// and the closures of services.
#![tactic(auto)]

pub mod carried;
pub mod closures;
pub mod each;
pub mod earlier;
pub mod firsts;
pub mod folded;
pub mod marked;
pub mod numbers;
mod once;
pub mod owned;
pub mod putting;
pub mod rows;
pub mod services;
