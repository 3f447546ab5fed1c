// `serve`: a gateway of a service of model files serves so many links, one after the other.
#![tactic(auto)]

pub mod laws;
mod links;
mod serving;
mod starting;
mod words;

pub use links::serve_links;
pub use serving::serve;
pub use starting::start;
pub use words::{MOST_LINKS, ServeWords, serve_words};
