// Models in the JSON AST (Smithy 2.0, "JSON AST"): the statements that a tree says, why a tree says none, and the one tree
// that is written for a graph.
#![tactic(auto)]

mod check;
mod id;
pub mod laws;
mod layout;
mod names;
mod part;
mod read;
mod refusal;
mod statements;
mod write;

pub use read::read_ast;
pub use refusal::AstRefusal;
pub use write::write_ast;
