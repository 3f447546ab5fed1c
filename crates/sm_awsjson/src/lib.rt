// AWS JSON 1.0 and 1.1: messages of these protocols, read and written.
#![tactic(auto)]

mod body;
mod context;
pub mod laws;
mod reading;
mod target;
mod version;
mod writing;

pub use body::AwsBody;
pub use context::AwsJson;
pub use sm_messages;
pub use sm_service;
pub use version::AwsVersion;
