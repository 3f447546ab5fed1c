// The operations of a service, each with its errors, its rule of HTTP and whether it is served.
ghost use Rattle.std.specs.Prelude.{◌≡◌, ◌+◌, ◌++◌, ◌∷◌, ◌<◌, ◌^◌, ℕ, List, [], IfOk, OnOk, Some, false, length, map, replicate, take};
ghost use Rattle.std.specs.List.{Contains};
ghost use Rattle.sm_model.specs.Graphs.{ShapeEntry, shape_entry};
ghost use Rattle.sm_model.specs.GraphView.{IsShapeAt, IsShapeNumber, entries_of, maps_of};
ghost use Rattle.sm_model.specs.Reaching.{AreMarks, id_of_number};
ghost use Rattle.sm_model.specs.Relations.{HasEntry};
ghost use Rattle.sm_compile.specs.Compiled.{EachSays};
ghost use Rattle.sm_compile.specs.WayRooms.{AreKnownServed};
ghost use Rattle.sm_compile.specs.steps.Numbered.{numbering};
ghost use Rattle.sm_rules.specs.Ready.{IsOfService, Ready};
ghost use Rattle.sm_rules.specs.Words.{IsOwnShape, IsService};
ghost use Rattle.sm_service.specs.Compiled.{AreOperationsOf, SaysError};
ghost use Rattle.sm_service.specs.ErrorOrder.{NamesDiffer};
ghost use Rattle.sm_service.specs.References.{once, reference_in};
ghost use Rattle.sm_service.specs.ServedOperation.{TellsAllServed, walk_roots};
ghost use Rattle.sm_service.specs.ServiceView.{operation_data, operations_view, served_said};
ghost use Rattle.sm_service.specs.declared.error.ErrorShape.{ErrorShape};
ghost use Rattle.sm_service.specs.declared.serving.WalkStart.{WalkStart};
ghost use Rattle.sm_service.specs.steps.OperationRows.{AreRowNumbers, AreShared, AreStarts, IsReadyOperation, RefersTo, StandsAt, TellsOperation};
ghost use Rattle.sm_service.specs.steps.OperationRows.{HaveErrorRows, JoinsErrors, NamesTell, PutsStarts, TellsErrors, errors_named};
ghost use Rattle.sm_service.specs.steps.OperationRows.{first_unserved, ids_of_errors};
ghost use Rattle.sm_service.specs.steps.ServiceTables.{AreValueShapes};
ghost use Rattle.sm_service.specs.steps.ServingRooms.{IsServingRoom};
ghost use Rattle.sm_service.specs.steps.WalkStarts.{HasFilledNames};

use crate::error::ErrorShape;
use crate::error_rows::id_copy;
use crate::errors::{Errors, KnownErrors};
use crate::http_rule::http_rule;
use crate::operation::Operation;
use crate::operation_errors::{again_among, named_errors, row_number};
use crate::operation_numbers::{name_at, operation_numbers};
use crate::references::reference;
use crate::served::OperationServed;
use crate::service::Operations;
use crate::serving::{WalkStart, served_from};
use crate::serving_room::ServingRoom;
use sm_compile::row_at;
use sm_model::{Graph, no_marks};
use sm_tree::{NoMemory, Text};
use std::alloc::Global;
use std::rc::Rc;

/// The errors of a service, for all of its operations, and whether their values can be carried.
#[derive(Drop)]
pub(crate) struct SharedErrors {
    /// The errors.
    pub known: Rc<KnownErrors>,
    /// Whether they are served, or the first path from one of them.
    pub served: OperationServed,
}

/// The operations of a service whose closure is marked, in the order of their names, over a table of these shapes, where these are known
/// to be served. n log n in operations and in what they name, besides the walks that tell whether they are served.
pub(crate) fn operations(
    alloc: Global,
    graph: &Graph,
    service: u32,
    marks: &[bool],
    served: Vec<bool>,
    shapes: &[u32],
) -> Result<Operations, NoMemory>
    requires number { IsShapeNumber graph.now service }
    requires service { IsService (maps_of graph.now) (id_of_number graph.now service) }
    requires ready { Ready (maps_of graph.now) (id_of_number graph.now service) }
    requires marks { AreMarks (length (entries_of graph.now))
        (λ k. IsOfService (maps_of graph.now) (id_of_number graph.now service) (id_of_number graph.now k)) marks.now }
    requires served { AreKnownServed graph.now served.items }
    requires shapes { AreValueShapes graph.now (id_of_number graph.now service) shapes.now }
    ensures { IfOk result (λ os. (s : ShapeEntry) → IsOwnShape (maps_of graph.now) (id_of_number graph.now service) s
        → AreOperationsOf (maps_of graph.now) (id_of_number graph.now service) (numbering graph.now shapes.now) s (operations_view os)) }
{
    let numbers = operation_numbers(alloc, graph, service, marks)?;
    let known = known_errors(alloc, graph, shapes, service)?;
    let mut room = ServingRoom::over(alloc, graph, served)?;
    let shared = share_errors(alloc, graph, shapes, known, &mut room)?;
    let rows = operation_rows(alloc, graph, shapes, &shared, numbers.as_slice(), &mut room)?;
    Ok(Operations::new(rows))
}

// The errors that a service names, for all of its operations.
fn known_errors(
    alloc: Global,
    graph: &Graph,
    shapes: &[u32],
    service: u32,
) -> Result<Rc<KnownErrors>, NoMemory>
    requires number { IsShapeNumber graph.now service }
    requires is_shape { IsShapeAt graph.now service }
    requires rows { AreRowNumbers graph.now shapes.now }
    requires errors { (s : ShapeEntry) × HasEntry (maps_of graph.now) (id_of_number graph.now service) (shape_entry s)
        × HaveErrorRows graph.now shapes.now (errors_named s) × NamesTell (errors_named s) }
    ensures rows { IfOk result (λ known.
        (s : ShapeEntry) → HasEntry (maps_of graph.now) (id_of_number graph.now service) (shape_entry s)
        → EachSays (SaysError (maps_of graph.now) (numbering graph.now shapes.now)) (once (errors_named s)) known.value) }
    ensures differ { IfOk result (λ known. NamesDiffer known.value) }
{
    let mut marks = no_marks(alloc, graph.count() as usize)?;
    let errors = named_errors(alloc, graph, shapes, service, &mut marks)?;
    let known = KnownErrors::new(alloc, errors)?;
    match Rc::new(alloc, known) {
        Ok(known) => Ok(known),
        Err(_) => Err(NoMemory),
    }
}

// These errors, and whether they are served.
fn share_errors<'a>(
    alloc: Global,
    graph: &'a Graph,
    shapes: &[u32],
    known: Rc<KnownErrors>,
    room: &mut ServingRoom<'a>,
) -> Result<SharedErrors, NoMemory>
    requires names { HasFilledNames (maps_of graph.now) }
    requires errors { (e : ErrorShape) → Contains known.value e → StandsAt graph.now shapes.now e }
    requires room { IsServingRoom graph.now room.old }
    ensures room { OnOk result (IsServingRoom graph.now room.new) }
    ensures same { IfOk result (λ shared. shared.known.value ≡ known.value) }
    ensures served { IfOk result (λ shared. TellsErrors graph.now shared.known.value (served_said shared.served)) }
{
    let served = errors_served(alloc, graph, shapes, known.as_ref().as_slice(), room)?;
    Ok(SharedErrors { known, served })
}

// Whether these errors are served.
fn errors_served<'a>(
    alloc: Global,
    graph: &'a Graph,
    shapes: &[u32],
    errors: &[ErrorShape],
    room: &mut ServingRoom<'a>,
) -> Result<OperationServed, NoMemory>
    requires names { HasFilledNames (maps_of graph.now) }
    requires errors { (e : ErrorShape) → Contains errors.now e → StandsAt graph.now shapes.now e }
    requires room { IsServingRoom graph.now room.old }
    ensures room { OnOk result (IsServingRoom graph.now room.new) }
    ensures served { IfOk result (λ s. TellsErrors graph.now errors.now (served_said s)) }
{
    let mut starts = Vec::new(alloc);
    push_errors(shapes, errors, &mut starts)?;
    served_from(alloc, graph, room, starts.as_slice())
}

// The rows of these operations, in order. One room serves all.
fn operation_rows<'a>(
    alloc: Global,
    graph: &'a Graph,
    shapes: &[u32],
    shared: &SharedErrors,
    operations: &[u32],
    room: &mut ServingRoom<'a>,
) -> Result<Vec<Operation>, NoMemory>
    requires rows { AreRowNumbers graph.now shapes.now }
    requires names { HasFilledNames (maps_of graph.now) }
    requires shared { AreShared graph.now shared.now }
    requires operations { (k : ℕ) → Contains operations.now k → IsReadyOperation graph.now shapes.now shared.now.known.value k }
    requires room { IsServingRoom graph.now room.old }
    ensures { IfOk result (λ rows. EachSays (TellsOperation graph.now shapes.now shared.now.known.value)
        (map (id_of_number graph.now) operations.now) (map operation_data rows.items)) }
{
    let mut marks = no_marks(alloc, graph.count() as usize)?;
    let mut rows = Vec::with_capacity(alloc, operations.len())?;
    for operation in operations {
        match operation_row(alloc, graph, shapes, shared, *operation, &mut marks, room) {
            Ok(row) => rows.push(row)?,
            Err(refusal) => return Err(refusal),
        }
    }
    Ok(rows)
}

// The row of an operation.
fn operation_row<'a>(
    alloc: Global,
    graph: &'a Graph,
    shapes: &[u32],
    shared: &SharedErrors,
    operation: u32,
    marks: &mut Vec<bool>,
    room: &mut ServingRoom<'a>,
) -> Result<Operation, NoMemory>
    requires rows { AreRowNumbers graph.now shapes.now }
    requires names { HasFilledNames (maps_of graph.now) }
    requires shared { AreShared graph.now shared.now }
    requires operation { IsReadyOperation graph.now shapes.now shared.now.known.value operation }
    requires marks { marks.old.items ≡ replicate (length (entries_of graph.now)) false }
    requires room { IsServingRoom graph.now room.old }
    ensures marks { OnOk result (marks.new.items ≡ replicate (length (entries_of graph.now)) false) }
    ensures room { OnOk result (IsServingRoom graph.now room.new) }
    ensures row { IfOk result (λ row. TellsOperation graph.now shapes.now shared.now.known.value
        (id_of_number graph.now operation) (operation_data row)) }
{
    let input = referred(graph, operation, "input");
    let output = referred(graph, operation, "output");
    let own = named_errors(alloc, graph, shapes, operation, marks)?;
    let walked = own_served(alloc, graph, shapes, own.as_slice(), input, output, room)?;
    let served = or_shared(alloc, walked, &shared.served)?;
    let errors = joined(alloc, own, &shared.known)?;
    let id = id_copy(alloc, graph, operation)?;
    let name = Text::copy(alloc, name_at(graph, operation))?;
    let http = http_rule(alloc, graph, operation)?;
    Ok(Operation {
        id,
        name,
        input: row_at(shapes, input),
        output: row_at(shapes, output),
        errors,
        http,
        served,
    })
}

// The number of the shape to which a field refers. A binary search.
fn referred(graph: &Graph, operation: u32, name: &str) -> u32
    requires number { IsShapeNumber graph.now operation }
    requires is_shape { IsShapeAt graph.now operation }
    requires there { RefersTo graph.now operation name.now }
    ensures number { IsShapeNumber graph.now result }
    ensures said { (s : ShapeEntry) → HasEntry (maps_of graph.now) (id_of_number graph.now operation) (shape_entry s)
        → reference_in name.now s ≡ Some (id_of_number graph.now result) }
{
    match reference(graph, operation, name) {
        Some(id) => row_number(graph, id),
        None => unreachable!(),
    }
}

// Own errors, and behind them those of a service that have no name of an own one.
fn joined(alloc: Global, own: Vec<ErrorShape>, known: &Rc<KnownErrors>) -> Result<Errors, NoMemory>
    requires few { length own.items < 2 ^ 32 }
    requires own { NamesDiffer own.items }
    requires known { NamesDiffer known.now.value }
    ensures { IfOk result (λ errors. JoinsErrors own.items known.now.value errors) }
{
    let again = again_among(alloc, own.as_slice(), known.as_ref())?;
    match known.clone() {
        Ok(shared) => Errors::new(alloc, own, Some(shared), again),
        Err(_) => Err(NoMemory),
    }
}

// Whether an operation's input, its output and the errors that it names are served.
fn own_served<'a>(
    alloc: Global,
    graph: &'a Graph,
    shapes: &[u32],
    own: &[ErrorShape],
    input: u32,
    output: u32,
    room: &mut ServingRoom<'a>,
) -> Result<OperationServed, NoMemory>
    requires names { HasFilledNames (maps_of graph.now) }
    requires input { IsShapeNumber graph.now input }
    requires output { IsShapeNumber graph.now output }
    requires errors { (e : ErrorShape) → Contains own.now e → StandsAt graph.now shapes.now e }
    requires room { IsServingRoom graph.now room.old }
    ensures room { OnOk result (IsServingRoom graph.now room.new) }
    ensures served { IfOk result (λ s. TellsAllServed (maps_of graph.now)
        (walk_roots (id_of_number graph.now input) (id_of_number graph.now output) (ids_of_errors own.now)) (served_said s)) }
{
    let starts = walk_starts(alloc, shapes, own, input, output)?;
    served_from(alloc, graph, room, starts.as_slice())
}

// Where those are served, what the errors of the service come to.
fn or_shared(
    alloc: Global,
    own: OperationServed,
    shared: &OperationServed,
) -> Result<OperationServed, NoMemory>
    ensures { IfOk result (λ s. served_said s ≡ first_unserved (served_said own) (served_said shared.now)) }
{
    match own {
        OperationServed::Yes => shared.share(alloc),
        OperationServed::Unserved(path) => Ok(OperationServed::Unserved(path)),
    }
}

// Where an operation's own walks begin.
fn walk_starts<'a>(
    alloc: Global,
    shapes: &[u32],
    own: &'a [ErrorShape],
    input: u32,
    output: u32,
) -> Result<Vec<WalkStart<'a>>, NoMemory>
    requires errors { (e : ErrorShape) → Contains own.now e → e.shape < length shapes.now }
    ensures { IfOk result (λ starts. AreStarts shapes.now own.now input output starts.items) }
{
    let mut starts = Vec::new(alloc);
    push_start(&mut starts, WalkStart::Input(input))?;
    push_start(&mut starts, WalkStart::Output(output))?;
    push_errors(shapes, own, &mut starts)?;
    Ok(starts)
}

// The starts of errors, behind those before them.
fn push_errors<'a>(
    shapes: &[u32],
    errors: &'a [ErrorShape],
    starts: &mut Vec<WalkStart<'a>>,
) -> Result<(), NoMemory>
    requires errors { (e : ErrorShape) → Contains errors.now e → e.shape < length shapes.now }
    ensures { OnOk result (PutsStarts shapes.now errors.now starts.old.items starts.new.items) }
{
    for place in 0..errors.len() {
        match push_error(shapes, errors, place, starts) {
            Ok(()) => {}
            Err(refusal) => return Err(refusal),
        }
    }
    Ok(())
}

// The start of the error at a place, behind those of the errors before it.
fn push_error<'a>(
    shapes: &[u32],
    errors: &'a [ErrorShape],
    place: usize,
    starts: &mut Vec<WalkStart<'a>>,
) -> Result<(), NoMemory>
    requires place { place < length errors.now }
    requires errors { (e : ErrorShape) → Contains errors.now e → e.shape < length shapes.now }
    ensures { OnOk result ((first : List WalkStart) → PutsStarts shapes.now (take place errors.now) first starts.old.items
        → PutsStarts shapes.now (take (place + 1) errors.now) first starts.new.items) }
{
    match errors.get(place) {
        Some(error) => push_start(
            starts,
            WalkStart::Error(error.name(), shapes[error.shape as usize]),
        ),
        None => unreachable!(),
    }
}

fn push_start<'a>(starts: &mut Vec<WalkStart<'a>>, start: WalkStart<'a>) -> Result<(), NoMemory>
    ensures { OnOk result (starts.new.items ≡ starts.old.items ++ start.entry ∷ []) }
{
    match starts.push(start) {
        Ok(()) => Ok(()),
        Err(_) => Err(NoMemory),
    }
}
