// What the traits of HTTP say (Smithy 2.0, "HTTP bindings"): `http` of an operation, `httpError` and `error` of a structure, and the
// bindings that members carry.
#![tactic(auto)]

pub mod bindings;
pub mod carriers;
pub mod errors;
pub mod http;
