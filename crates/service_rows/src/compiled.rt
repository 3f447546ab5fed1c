// What compiling a service answers: its operations or its table, or why there is none.
ghost use Rattle.sm_ids.specs.IdText.{printed};
ghost use Rattle.sm_ids.specs.View.{id_of};
ghost use Rattle.sm_model.specs.GraphView.{maps_of};
ghost use Rattle.sm_rules.specs.Ready.{Ready};

use crate::operation::show_operation;
use crate::row::ServiceQuestion;
use crate::table::show_table;
use sm_ids::ShapeIdRef;
use sm_model::Graph;
use sm_service::{Service, ServiceRefusal, compile};
use sm_shapes::Patterns;
use sm_tree::NoMemory;
use std::alloc::Global;
use std::fmt::Write;

/// Appends what compiling the service with this id answers, over this store.
pub fn show_compiled<P: Patterns>(
    alloc: Global,
    asked: ServiceQuestion,
    graph: &Graph,
    id: &ShapeIdRef<'_>,
    patterns: &mut P,
    out: &mut String,
) -> Result<(), NoMemory>
    requires { Ready (maps_of graph.now) (printed (id_of id.now)) }
{
    match compile(alloc, graph, id, patterns) {
        Ok(service) => show_service(alloc, asked, &service, out),
        Err(ServiceRefusal::NoService) => Ok(out.push_str("NoService")?),
        Err(ServiceRefusal::Pattern(carrier)) => Ok(write!(out, "Pattern {}", carrier.as_str())?),
        Err(ServiceRefusal::NoMemory) => Err(NoMemory),
    }
}

fn show_service(
    alloc: Global,
    asked: ServiceQuestion,
    service: &Service,
    out: &mut String,
) -> Result<(), NoMemory> {
    match asked {
        ServiceQuestion::Operations => show_operations(alloc, service, out),
        ServiceQuestion::Table => show_table(&service.table, out),
    }
}

// Its name, and its operations in order.
fn show_operations(alloc: Global, service: &Service, out: &mut String) -> Result<(), NoMemory> {
    out.push_str(service.name.as_str())?;
    for operation in service.operations.as_slice() {
        out.push_str("; ")?;
        show_operation(alloc, operation, out)?;
    }
    Ok(())
}
