// An error of an operation, or of a service.
ghost use Rattle.std.specs.Prelude.{◌≡◌};
ghost use Rattle.sm_service.specs.ServiceData.{name_of_error};

use sm_ids::{ShapeId, namespace_and_name, without_member};

/// A structure that an operation answers where it fails (Smithy 2.0, "error trait", "httpError trait").
#[derive(Debug, Drop)]
pub struct ErrorShape {
    /// Its id.
    pub id: ShapeId,
    /// The number of the structure in the table of the service.
    pub shape: u32,
    /// Whether its `error` is `client`.
    pub client: bool,
    /// The status of `httpError`, where it has one.
    pub status: Option<u16>,
}

impl ErrorShape {
    /// The name by which messages tell it: that of its shape, without a namespace. No memory.
    pub fn name(&self) -> &str
        ensures { result.now ≡ name_of_error self.now }
    {
        without_member(namespace_and_name(self.id.as_str()).1)
    }
}
