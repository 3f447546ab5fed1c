// The rules of models (Smithy 2.0, "Model validation"): what each says, by its name, and how grave its events are.
#![tactic(auto)]

mod rule;

pub use rule::Rule;
