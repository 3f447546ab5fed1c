// The command `cross`: a session of a gateway, whose front is the input and the output, and whose back is a file of answers and a file of
// requests.
#![tactic(auto)]

pub mod cross;
pub mod laws;
mod status;
mod words;

pub use sm_asked_ends;
pub use words::{CrossWords, cross_words};
