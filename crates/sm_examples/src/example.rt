// An example of an operation.
use sm_messages::Reply;
use sm_shapes::values::Value;

/// An input of an operation, and what the operation answers to it.
#[derive(Debug, Drop)]
pub struct Example {
    /// The number of the operation in its service.
    pub operation: u32,
    /// The value of its input.
    pub input: Value,
    /// Its output, or one of its errors.
    pub reply: Reply,
}
