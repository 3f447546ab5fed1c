// Rows under texts, put into groups: those of one text together, in the order in which they stood, and the texts in byte order.
#![tactic(auto)]

mod groups;

pub use groups::{Group, by_key};
