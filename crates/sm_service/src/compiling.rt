// A service of a graph, compiled.
ghost use Rattle.std.specs.Prelude.{◌≡◌, IfOk, length};
ghost use Rattle.sm_ids.specs.IdText.{printed};
ghost use Rattle.sm_ids.specs.View.{id_of};
ghost use Rattle.sm_model.specs.GraphView.{IsShapeNumber, entries_of, maps_of};
ghost use Rattle.sm_model.specs.Reaching.{AreMarks, id_of_number};
ghost use Rattle.sm_compile.specs.Answers.{seen_store};
ghost use Rattle.sm_compile.specs.WayRooms.{AreKnownServed};
ghost use Rattle.sm_rules.specs.Ready.{IsOfService, Ready};
ghost use Rattle.sm_rules.specs.Words.{IsService};
ghost use Rattle.sm_service.specs.Answers.{CompilesService};
ghost use Rattle.sm_service.specs.steps.ServiceTables.{AreValueShapes};
ghost use Rattle.sm_service.specs.steps.ServicesMade.{IsServiceFrom};

use crate::closure::{closure, service_number};
use crate::known::known_served;
use crate::operation_numbers::name_at;
use crate::operations::operations;
use crate::refusal::ServiceRefusal;
use crate::service::Service;
use crate::table::service_table;
use sm_compile::Tabled;
use sm_ids::ShapeIdRef;
use sm_model::Graph;
use sm_select::Ways;
use sm_shapes::Patterns;
use sm_shapes::tables::Table;
use sm_tree::{NoMemory, Text};
use std::alloc::Global;

// Marks of all numbers: of what a service leads to, and of shapes that are known to be served.
#[derive(Drop)]
struct ServiceMarks {
    led: Vec<bool>,
    served: Vec<bool>,
}

/// The service of an id, whose patterns are added to the store. The caller sees by `ready` that no rule fails at what the service leads
/// to. `NoService` where the id is no service's; `Pattern` where the store refuses one that the service leads to, with the least id
/// that carries it; `NoMemory` where memory is refused. n log n in the graph, besides the walks that tell whether operations are served.
pub fn compile<P: Patterns>(
    alloc: Global,
    graph: &Graph,
    service: &ShapeIdRef<'_>,
    patterns: &mut P,
) -> Result<Service, ServiceRefusal>
    requires ready { Ready (maps_of graph.now) (printed (id_of service.now)) }
    ensures { CompilesService (maps_of graph.now) (printed (id_of service.now)) P.test
        (seen_store (P.added patterns.old) (P.refused patterns.old) (P.refusals patterns.old))
        (seen_store (P.added patterns.new) (P.refused patterns.new) (P.refusals patterns.new)) result }
{
    match service_number(graph, service) {
        Some(number) => compile_service(alloc, graph, number, patterns),
        None => Err(ServiceRefusal::NoService),
    }
}

// The service at a number.
fn compile_service<P: Patterns>(
    alloc: Global,
    graph: &Graph,
    service: u32,
    patterns: &mut P,
) -> Result<Service, ServiceRefusal>
    requires number { IsShapeNumber graph.now service }
    requires service { IsService (maps_of graph.now) (id_of_number graph.now service) }
    requires ready { Ready (maps_of graph.now) (id_of_number graph.now service) }
    ensures { CompilesService (maps_of graph.now) (id_of_number graph.now service) P.test
        (seen_store (P.added patterns.old) (P.refused patterns.old) (P.refusals patterns.old))
        (seen_store (P.added patterns.new) (P.refused patterns.new) (P.refusals patterns.new)) result }
{
    let ServiceMarks { led, served } = match marked(alloc, graph, service) {
        Ok(marked) => marked,
        Err(_) => return Err(ServiceRefusal::NoMemory),
    };
    let Tabled { table, shapes } = match service_table(
        alloc,
        graph,
        service,
        led.as_slice(),
        patterns,
    ) {
        Ok(tabled) => tabled,
        Err(refusal) => return Err(refusal),
    };
    match with_operations(
        alloc,
        graph,
        service,
        led.as_slice(),
        served,
        shapes.as_slice(),
        table,
    ) {
        Ok(made) => Ok(made),
        Err(_) => Err(ServiceRefusal::NoMemory),
    }
}

// The service and all that it leads to, and what is served, as marks. Links are sorted once for both.
fn marked(alloc: Global, graph: &Graph, service: u32) -> Result<ServiceMarks, NoMemory>
    requires number { IsShapeNumber graph.now service }
    requires service { IsService (maps_of graph.now) (id_of_number graph.now service) }
    ensures led { IfOk result (λ marked. AreMarks (length (entries_of graph.now))
        (λ k. IsOfService (maps_of graph.now) (id_of_number graph.now service) (id_of_number graph.now k)) marked.led.items) }
    ensures served { IfOk result (λ marked. AreKnownServed graph.now marked.served.items) }
{
    let ways = Ways::new(alloc, graph)?;
    let led = closure(alloc, graph, &ways, service)?;
    let served = known_served(alloc, graph, &ways)?;
    Ok(ServiceMarks { led, served })
}

// The service of a table of these shapes.
fn with_operations(
    alloc: Global,
    graph: &Graph,
    service: u32,
    marks: &[bool],
    served: Vec<bool>,
    shapes: &[u32],
    table: Table,
) -> Result<Service, NoMemory>
    requires number { IsShapeNumber graph.now service }
    requires service { IsService (maps_of graph.now) (id_of_number graph.now service) }
    requires ready { Ready (maps_of graph.now) (id_of_number graph.now service) }
    requires marks { AreMarks (length (entries_of graph.now))
        (λ k. IsOfService (maps_of graph.now) (id_of_number graph.now service) (id_of_number graph.now k)) marks.now }
    requires served { AreKnownServed graph.now served.items }
    requires shapes { AreValueShapes graph.now (id_of_number graph.now service) shapes.now }
    ensures { IfOk result (λ made. IsServiceFrom graph.now (id_of_number graph.now service) shapes.now table made) }
{
    let name = Text::copy(alloc, name_at(graph, service))?;
    let operations = operations(alloc, graph, service, marks, served, shapes)?;
    Ok(Service {
        table,
        name,
        operations,
    })
}
