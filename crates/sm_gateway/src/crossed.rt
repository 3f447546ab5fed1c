// A request on the side of the back.
use sm_http::Message;

/// A request that crossed.
#[derive(Debug, Drop)]
pub struct Crossed {
    /// The number of its operation.
    pub operation: u32,
    /// The request to the back.
    pub message: Message,
}
