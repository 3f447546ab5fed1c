// Which operation a request is for, by methods and patterns of URIs (Smithy 2.0, "http trait"), what its target has for the labels, and targets
// as they are written.
#![tactic(auto)]

mod finding;
mod matching;
mod order;
mod passing;
mod query;
mod reading;
mod route;
mod routes;
mod stand;
mod target;
mod walk;

pub use finding::is_routed;
pub use reading::{labels, pairs_left};
pub use route::Route;
pub use routes::Routes;
pub use target::put_target;
