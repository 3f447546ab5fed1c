// Events of the rules of models: all that fails and isn't suppressed, in order (Smithy 2.0, "Model validation"); and models of files.
#![tactic(auto)]

pub mod laws;
mod loading;
mod model;
mod naming;
mod shared;
mod suppressed;
mod suppressing;
mod texts;
mod told;

pub use loading::load;
pub use model::{LoadRefusal, Model, ModelFile, TextPlace};
pub use told::events;
