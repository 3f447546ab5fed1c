// The command `transform`, with its words.
#![tactic(auto)]

pub mod laws;
pub mod transform;
mod words;

pub use words::{ChangeWords, TransformWords, transform_words};
