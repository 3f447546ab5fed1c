// An operation of a service, and what `http` says of it.
use crate::errors::Errors;
use crate::served::OperationServed;
use sm_ids::ShapeId;
use sm_tree::Text;
use sm_uri::UriPattern;

/// What the trait `http` says (Smithy 2.0, "http trait").
#[derive(Debug, Drop)]
pub struct HttpRule {
    /// The method, as it is written.
    pub method: Text,
    /// The pattern of the target.
    pub uri: UriPattern,
    /// The status of an answer that is no error: 200 where none is written.
    pub code: u16,
}

/// An operation of a service (Smithy 2.0, "Operation").
#[derive(Debug, Drop)]
pub struct Operation {
    /// Its id.
    pub id: ShapeId,
    /// The name of its shape, without a namespace.
    pub name: Text,
    /// The number of its input in the table of the service: the prelude's `Unit` where it has none.
    pub input: u32,
    /// The number of its output, likewise.
    pub output: u32,
    /// Its own errors, then those of the service, each once at its first place.
    pub errors: Errors,
    /// What `http` says, where it carries this trait.
    pub http: Option<HttpRule>,
    /// Whether values of its input, output and errors can be carried.
    pub served: OperationServed,
}
