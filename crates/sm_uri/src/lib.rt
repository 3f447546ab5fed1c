// Patterns of URIs (Smithy 2.0, "http trait"): what they are, how a text is read as one, and which are one route.
#![tactic(auto)]

mod bytes;
mod label;
pub mod laws;
mod path;
mod pattern;
mod query;
mod route;
mod stop;

pub use pattern::{Segment, UriPattern, UriRefusal};
pub use route::route_text;
