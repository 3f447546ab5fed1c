// What an operation answers.
use sm_shapes::values::Value;

/// What an operation answers.
#[derive(Debug, Drop)]
pub enum Reply {
    /// Its output.
    Output(Value),
    /// One of its errors, by its place among these, with its value.
    Error(u32, Value),
}
