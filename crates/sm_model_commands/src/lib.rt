// The commands over model files: `check`, `convert` and `select`, with their words.
#![tactic(auto)]

pub mod check;
pub mod convert;
pub mod laws;
mod lines;
pub mod select;
mod words;

pub use sm_asked;
pub use words::{
    CheckWords, ConvertForm, ConvertWords, SelectWords, check_words, convert_words, select_words,
};
