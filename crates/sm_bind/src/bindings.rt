// The bindings of a service, made once.
ghost use Rattle.std.specs.Prelude.{◌≡◌, IfOk, slice_get};
ghost use Rattle.sm_shapes.specs.InOrder.{Shaped};
ghost use Rattle.sm_shapes.specs.TableView.{table_data};
ghost use Rattle.sm_service.specs.Servable.{Servable};
ghost use Rattle.sm_service.specs.ServiceView.{service_data};
ghost use Rattle.sm_bind.specs.BindingsView.{AreBindingsOf, bindings_data, body_at, body_in, bound_side};

use crate::documents::documents_on;
use crate::side::PartSide;
use sm_excerpts::copy_of_table;
use sm_service::Service;
use sm_shapes::tables::Table;
use sm_tree::NoMemory;
use std::alloc::Global;

/// The bindings of a service: the table by which documents are read, and where each body is found in it.
#[derive(Debug, Drop)]
pub struct Bindings {
    // The table.
    documents: Table,
    // By the numbers of shapes, the bodies of inputs,
    inputs: Vec<Option<u32>>,
    // of outputs,
    outputs: Vec<Option<u32>>,
    // and of errors.
    errors: Vec<Option<u32>>,
}

impl Bindings {
    /// The bindings of a service. n log n in the members of its table, however many operations share a shape.
    ///
    /// # Errors
    ///
    /// `NoMemory`.
    pub fn new(alloc: Global, service: &Service) -> Result<Bindings, NoMemory>
        requires { Servable (service_data service.now) }
        ensures { IfOk result (λ bindings. AreBindingsOf (service_data service.now).table (bindings_data bindings)) }
    {
        Bindings::of_table(alloc, &service.table)
    }

    // Those of its table.
    fn of_table(alloc: Global, table: &Table) -> Result<Bindings, NoMemory>
        requires { Shaped (table_data table.now) }
        ensures { IfOk result (λ bindings. AreBindingsOf (table_data table.now) (bindings_data bindings)) }
    {
        let documents = copy_of_table(alloc, table)?;
        let inputs = documents_on(alloc, table, PartSide::Input, documents)?;
        let outputs = documents_on(alloc, table, PartSide::Output, inputs.table)?;
        let errors = documents_on(alloc, table, PartSide::Error, outputs.table)?;
        Ok(Bindings {
            documents: errors.table,
            inputs: inputs.bodies,
            outputs: outputs.bodies,
            errors: errors.bodies,
        })
    }

    /// The table of the service, with its shapes and members as they are, and a structure more for the document of each shape whose members
    /// don't all stand there. No memory.
    pub fn documents(&self) -> &Table
        ensures { table_data result.now ≡ (bindings_data self.now).documents }
    {
        &self.documents
    }

    /// The number of the shape of that table by which a body is read that goes to a shape on a side: that of its document, or the target of
    /// a payload that is a structure or a union. No memory.
    pub fn document(&self, side: PartSide, shape: u32) -> Option<u32>
        ensures { result ≡ body_at (bindings_data self.now) (bound_side side) shape }
    {
        match side {
            PartSide::Input => body_of(&self.inputs, shape),
            PartSide::Output => body_of(&self.outputs, shape),
            PartSide::Error => body_of(&self.errors, shape),
        }
    }
}

fn body_of(bodies: &[Option<u32>], shape: u32) -> Option<u32>
    ensures { result ≡ body_in (slice_get bodies.now shape) }
{
    match bodies.get(shape as usize) {
        Some(body) => *body,
        None => None,
    }
}
