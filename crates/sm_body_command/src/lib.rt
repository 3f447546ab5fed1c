// The command `body`: a body of one shape, read in the form of one side and written in that of the other.
#![tactic(auto)]

pub mod body;
pub mod laws;
mod words;

pub use words::{BodyWords, body_words};
