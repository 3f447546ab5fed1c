// Rules of models on HTTP bindings (Smithy 2.0, "HTTP bindings"): patterns, methods, codes, what is bound, and names in messages.
#![tactic(auto)]

mod again;
mod allows;
pub mod bound_targets;
pub mod codes;
mod in_body;
mod label_rows;
mod label_told;
pub mod labels;
mod left_out;
pub mod methods;
mod naming;
mod prefixes;
mod route_keys;
pub mod routes;
mod same_routes;
mod shortest;
pub mod sides;
mod targets;
pub mod uris;
pub mod wire_names;
