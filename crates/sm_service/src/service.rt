// A service with all that a message needs of its model.
ghost use Rattle.std.specs.Prelude.{◌≡◌, map};
ghost use Rattle.sm_service.specs.ServiceView.{operation_data, operations_view};

use crate::operation::Operation;
use sm_shapes::tables::Table;
use sm_tree::Text;

/// The operations of a service, in the byte order of their names.
#[derive(Debug, Drop)]
pub struct Operations {
    operations: Vec<Operation>,
}

impl Operations {
    /// The operations that a vector holds. No memory.
    pub fn new(operations: Vec<Operation>) -> Self
        ensures { operations_view result ≡ map operation_data operations.items }
    {
        Operations { operations }
    }

    /// The vector. No memory.
    pub fn into_inner(self) -> Vec<Operation>
        ensures { map operation_data result.items ≡ operations_view self }
    {
        self.operations
    }

    /// The operations, in order. No memory.
    pub fn as_slice(&self) -> &[Operation]
        ensures { map operation_data result.now ≡ operations_view self.now }
    {
        self.operations.as_slice()
    }
}

/// A service (Smithy 2.0, "Service"): the table of all that it leads to, and its operations, those of its resources among them.
#[derive(Debug, Drop)]
pub struct Service {
    /// The shapes that its operations, errors and resources reach, with their members, bindings and media types.
    pub table: Table,
    /// The name of its shape, without a namespace.
    pub name: Text,
    /// Its operations.
    pub operations: Operations,
}
