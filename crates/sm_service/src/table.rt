// The table of a service: the shapes with values that it leads to, with their members, bindings and media types.
ghost use Rattle.std.specs.Prelude.{◌≡◌, length};
ghost use Rattle.sm_model.specs.GraphView.{IsShapeNumber, entries_of, maps_of};
ghost use Rattle.sm_model.specs.Reaching.{AreMarks, id_of_number};
ghost use Rattle.sm_compile.specs.Answers.{seen_store};
ghost use Rattle.sm_rules.specs.Ready.{IsOfService, Ready};
ghost use Rattle.sm_rules.specs.Words.{IsService};
ghost use Rattle.sm_service.specs.steps.ServiceTables.{AreValueShapes, TablesBound, TablesService, TablesShapes, refusal_of};

use crate::bound_table::bound_table;
use crate::refusal::ServiceRefusal;
use sm_compile::{CompileRefusal, Tabled, compile_roots, tabled_shapes};
use sm_model::Graph;
use sm_shapes::Patterns;
use sm_shapes::tables::Table;
use std::alloc::Global;

/// The table of the service at a number, whose closure is marked. Its patterns are added to the store. `Pattern` where the store refuses
/// one that the service leads to, with the least id that carries it; `NoMemory` where memory is refused. n log n in what is marked.
pub(crate) fn service_table<P: Patterns>(
    alloc: Global,
    graph: &Graph,
    service: u32,
    marks: &[bool],
    patterns: &mut P,
) -> Result<Tabled, ServiceRefusal>
    requires service { IsService (maps_of graph.now) (id_of_number graph.now service) }
    requires ready { Ready (maps_of graph.now) (id_of_number graph.now service) }
    requires marks { AreMarks (length (entries_of graph.now))
        (λ k. IsOfService (maps_of graph.now) (id_of_number graph.now service) (id_of_number graph.now k)) marks.now }
    ensures { TablesService graph.now (id_of_number graph.now service) P.test
        (seen_store (P.added patterns.old) (P.refused patterns.old) (P.refusals patterns.old))
        (seen_store (P.added patterns.new) (P.refused patterns.new) (P.refusals patterns.new)) result }
{
    let shapes = match tabled_shapes(alloc, graph, marks) {
        Ok(shapes) => shapes,
        Err(_) => return Err(ServiceRefusal::NoMemory),
    };
    match table_of_shapes(alloc, graph, service, shapes.as_slice(), patterns) {
        Ok(table) => Ok(Tabled { table, shapes }),
        Err(refusal) => Err(refusal),
    }
}

// The table of these shapes, which are those of the service.
fn table_of_shapes<P: Patterns>(
    alloc: Global,
    graph: &Graph,
    service: u32,
    shapes: &[u32],
    patterns: &mut P,
) -> Result<Table, ServiceRefusal>
    requires service { IsService (maps_of graph.now) (id_of_number graph.now service) }
    requires ready { Ready (maps_of graph.now) (id_of_number graph.now service) }
    requires shapes { AreValueShapes graph.now (id_of_number graph.now service) shapes.now }
    ensures { TablesBound graph.now (id_of_number graph.now service) shapes.now P.test
        (seen_store (P.added patterns.old) (P.refused patterns.old) (P.refusals patterns.old))
        (seen_store (P.added patterns.new) (P.refused patterns.new) (P.refusals patterns.new)) result }
{
    let table = match plain_table(alloc, graph, service, shapes, patterns) {
        Ok(table) => table,
        Err(refusal) => return Err(refusal),
    };
    match bound_table(alloc, graph, shapes, table) {
        Ok(table) => Ok(table),
        Err(_) => Err(ServiceRefusal::NoMemory),
    }
}

// The same, without bindings and media types.
fn plain_table<P: Patterns>(
    alloc: Global,
    graph: &Graph,
    service: u32,
    shapes: &[u32],
    patterns: &mut P,
) -> Result<Table, ServiceRefusal>
    requires service { IsService (maps_of graph.now) (id_of_number graph.now service) }
    requires ready { Ready (maps_of graph.now) (id_of_number graph.now service) }
    requires shapes { AreValueShapes graph.now (id_of_number graph.now service) shapes.now }
    ensures { TablesShapes graph.now (id_of_number graph.now service) shapes.now P.test
        (seen_store (P.added patterns.old) (P.refused patterns.old) (P.refusals patterns.old))
        (seen_store (P.added patterns.new) (P.refused patterns.new) (P.refusals patterns.new)) result }
{
    match compile_roots(alloc, graph, shapes, patterns) {
        Ok(tabled) => Ok(tabled.table),
        Err(refusal) => Err(refusal_of(refusal)),
    }
}

fn refusal_of(refusal: CompileRefusal) -> ServiceRefusal
    ensures { result ≡ refusal_of refusal }
{
    match refusal {
        CompileRefusal::NoShape => ServiceRefusal::NoService,
        CompileRefusal::Pattern(id) => ServiceRefusal::Pattern(id),
        CompileRefusal::NoMemory => ServiceRefusal::NoMemory,
    }
}
