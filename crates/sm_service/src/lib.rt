// From an accepted model to a service that can be served: its table, its operations with their errors and routes, made once, so that no
// message pays for the model.
#![tactic(auto)]

mod bound_members;
mod bound_table;
mod closure;
mod compiling;
mod error;
mod error_order;
mod error_rows;
mod errors;
mod http_rule;
mod known;
pub mod laws;
mod operation;
mod operation_errors;
mod operation_numbers;
mod operations;
mod references;
mod refusal;
mod served;
mod service;
mod serving;
mod serving_room;
mod table;

pub use compiling::compile;
pub use error::ErrorShape;
pub use errors::Errors;
pub use operation::{HttpRule, Operation};
pub use refusal::ServiceRefusal;
pub use served::{MemberPath, OperationServed};
pub use service::{Operations, Service};
