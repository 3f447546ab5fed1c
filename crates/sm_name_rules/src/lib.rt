// Rules of models on names (Smithy 2.0, "Model validation"): of shapes, of members, and in the closures of services.
#![tactic(auto)]

pub mod case;
mod earlier;
mod given_names;
mod name_twins;
mod named;
pub mod names;
pub mod repeats;
