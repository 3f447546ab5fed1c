// Transforms of models: shapes that a selector picks are kept or taken out, and namespaces get other names.
#![tactic(auto)]

mod changed_body;
mod changed_shapes;
mod copies;
mod excluding;
mod ids;
mod including;
mod knowing;
pub mod laws;
mod losses;
mod needs;
mod numbers;
mod renaming;
mod steps;

pub use excluding::excluded;
pub use including::included;
pub use renaming::{RenameRefusal, renamed};
