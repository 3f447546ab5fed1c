// Smithy RPC v2 CBOR: messages of this protocol, read and written.
#![tactic(auto)]

mod body;
mod context;
pub mod laws;
mod path;
mod reading;
mod writing;

pub use body::RpcBody;
pub use context::Rpc;
