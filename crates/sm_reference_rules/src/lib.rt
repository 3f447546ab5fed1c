// Rules of models on references (Smithy 2.0, "Model validation"): what they name, what they lead to, and what none of them names.
#![tactic(auto)]

pub mod finite;
pub mod kinds;
pub mod missing;
mod references;
pub mod unused;
