// The errors of an operation: those that it names, and the places among those of its service of what it names too.
ghost use Rattle.std.specs.Prelude.{◌≡◌, ◌++◌, ◌∷◌, ◌<◌, ◌^◌, ℕ, List, [], IfOk, OnOk, cond, false, get_or, length, map, replicate};
ghost use Rattle.std.specs.List.{Contains};
ghost use Rattle.sm_model.specs.GraphView.{IsShapeAt, IsShapeNumber, entries_of, maps_of};
ghost use Rattle.sm_model.specs.Reaching.{AreFound, id_of_number};
ghost use Rattle.sm_model.specs.Relations.{HasEntry};
ghost use Rattle.sm_model.specs.Graphs.{ShapeEntry, shape_entry};
ghost use Rattle.sm_compile.specs.Compiled.{EachSays};
ghost use Rattle.sm_compile.specs.steps.Naming.{texts_of_all};
ghost use Rattle.sm_compile.specs.steps.Numbered.{numbering};
ghost use Rattle.sm_service.specs.Compiled.{SaysError};
ghost use Rattle.sm_service.specs.ErrorOrder.{NamesDiffer};
ghost use Rattle.sm_service.specs.References.{once};
ghost use Rattle.sm_service.specs.steps.OperationRows as words;
ghost use Rattle.sm_service.specs.steps.OperationRows.{AreAgain, AreErrorNumbers, AreRowNumbers, HasRow, HaveErrorRows, IsIdOf, NamesErrors};
ghost use Rattle.sm_service.specs.steps.OperationRows.{errors_named};

use crate::error::ErrorShape;
use crate::error_rows::error_row;
use crate::errors::KnownErrors;
use crate::references::references;
use sm_compile::unmark_all;
use sm_model::Graph;
use sm_tree::NoMemory;
use std::alloc::Global;

/// The errors that a shape names, each once, at its first place. No mark of the graph's numbers is set before, and none behind. Time as
/// what is named.
pub(crate) fn named_errors(
    alloc: Global,
    graph: &Graph,
    shapes: &[u32],
    shape: u32,
    marks: &mut Vec<bool>,
) -> Result<Vec<ErrorShape>, NoMemory>
    requires number { IsShapeNumber graph.now shape }
    requires is_shape { IsShapeAt graph.now shape }
    requires rows { AreRowNumbers graph.now shapes.now }
    requires errors { (s : ShapeEntry) × HasEntry (maps_of graph.now) (id_of_number graph.now shape) (shape_entry s)
        × HaveErrorRows graph.now shapes.now (errors_named s) }
    requires marks { marks.old.items ≡ replicate (length (entries_of graph.now)) false }
    ensures marks { OnOk result (marks.new.items ≡ replicate (length (entries_of graph.now)) false) }
    ensures errors { IfOk result (λ errors.
        (s : ShapeEntry) → HasEntry (maps_of graph.now) (id_of_number graph.now shape) (shape_entry s)
        → EachSays (SaysError (maps_of graph.now) (numbering graph.now shapes.now)) (once (errors_named s)) errors.items) }
    ensures few { IfOk result (λ errors. length errors.items < 2 ^ 32) }
{
    let ids = references(alloc, graph, shape, "errors")?;
    let numbers = numbers_once(alloc, graph, shapes, ids.as_slice(), marks)?;
    error_rows(alloc, graph, shapes, numbers.as_slice())
}

// The numbers of these ids, each once, at its first place. Behind it no mark is set.
fn numbers_once(
    alloc: Global,
    graph: &Graph,
    shapes: &[u32],
    ids: &[&str],
    marks: &mut Vec<bool>,
) -> Result<Vec<u32>, NoMemory>
    requires rows { AreRowNumbers graph.now shapes.now }
    requires there { (id : List ℕ) → Contains (texts_of_all ids.now) id → HasRow graph.now shapes.now id }
    requires marks { marks.old.items ≡ replicate (length (entries_of graph.now)) false }
    ensures marks { OnOk result (marks.new.items ≡ replicate (length (entries_of graph.now)) false) }
    ensures named { IfOk result (λ numbers. NamesErrors graph.now shapes.now (texts_of_all ids.now) numbers.items) }
{
    let mut numbers = Vec::new(alloc);
    match put_each_once(graph, shapes, ids, marks, &mut numbers) {
        Ok(()) => {}
        Err(refusal) => return Err(refusal),
    }
    unmark_all(numbers.as_slice(), marks);
    Ok(numbers)
}

// Appends the numbers of these ids, each once, and marks them.
fn put_each_once(
    graph: &Graph,
    shapes: &[u32],
    ids: &[&str],
    marks: &mut Vec<bool>,
    numbers: &mut Vec<u32>,
) -> Result<(), NoMemory>
    requires rows { AreRowNumbers graph.now shapes.now }
    requires there { (id : List ℕ) → Contains (texts_of_all ids.now) id → HasRow graph.now shapes.now id }
    requires marks { marks.old.items ≡ replicate (length (entries_of graph.now)) false }
    requires none { numbers.old.items ≡ [] }
    ensures count { OnOk result (length marks.new.items ≡ length (entries_of graph.now)) }
    ensures found { OnOk result (AreFound marks.new.items numbers.new.items) }
    ensures named { OnOk result (NamesErrors graph.now shapes.now (texts_of_all ids.now) numbers.new.items) }
{
    for id in ids {
        match put_once(row_number(graph, id), marks, numbers) {
            Ok(()) => {}
            Err(refusal) => return Err(refusal),
        }
    }
    Ok(())
}

// Appends a number and marks it, where it isn't marked.
fn put_once(number: u32, marks: &mut Vec<bool>, numbers: &mut Vec<u32>) -> Result<(), NoMemory>
    requires within { number < length marks.old.items }
    requires found { AreFound marks.old.items numbers.old.items }
    ensures count { OnOk result (length marks.new.items ≡ length marks.old.items) }
    ensures found { OnOk result (AreFound marks.new.items numbers.new.items) }
    ensures put { OnOk result (numbers.new.items
        ≡ numbers.old.items ++ cond (get_or marks.old.items number false) [] (number ∷ [])) }
{
    if marks[number as usize] {
        return Ok(());
    }
    marks[number as usize] = true;
    numbers.push(number)?;
    Ok(())
}

/// The number of an id that the graph has. A binary search.
pub(crate) fn row_number(graph: &Graph, id: &str) -> u32
    requires { IsIdOf graph.now id.now }
    ensures number { IsShapeNumber graph.now result }
    ensures id { id_of_number graph.now result ≡ id.now }
{
    match graph.number(id) {
        Some(number) => number,
        None => unreachable!(),
    }
}

// The rows of the errors at these numbers.
fn error_rows(
    alloc: Global,
    graph: &Graph,
    shapes: &[u32],
    numbers: &[u32],
) -> Result<Vec<ErrorShape>, NoMemory>
    requires rows { AreRowNumbers graph.now shapes.now }
    requires errors { AreErrorNumbers graph.now shapes.now numbers.now }
    ensures { IfOk result (λ rows. EachSays (SaysError (maps_of graph.now) (numbering graph.now shapes.now))
        (map (id_of_number graph.now) numbers.now) rows.items) }
{
    let mut rows = Vec::with_capacity(alloc, numbers.len())?;
    for number in numbers {
        rows.push(error_row(alloc, graph, shapes, *number)?)?;
    }
    Ok(rows)
}

/// The places, among errors of a service, of those that have the name of an own one. n log n in the own ones.
pub(crate) fn again_among(
    alloc: Global,
    own: &[ErrorShape],
    shared: &KnownErrors,
) -> Result<Vec<u32>, NoMemory>
    requires own { NamesDiffer own.now }
    requires shared { NamesDiffer shared.now }
    ensures { IfOk result (λ again. AreAgain own.now shared.now again.items) }
{
    let places = places_among(alloc, own, shared)?;
    Ok(in_order(own, shared, places))
}

// These places, own error by own error.
fn places_among(
    alloc: Global,
    own: &[ErrorShape],
    shared: &KnownErrors,
) -> Result<Vec<u32>, NoMemory>
    ensures { IfOk result (λ places. places.items ≡ words.places_among own.now shared.now) }
{
    let mut places = Vec::new(alloc);
    for error in own {
        match shared.named(error.name()) {
            Some(place) => places.push(place)?,
            None => {}
        }
    }
    Ok(places)
}

// They rise then.
fn in_order(own: &[ErrorShape], shared: &KnownErrors, places: Vec<u32>) -> Vec<u32>
    requires own { NamesDiffer own.now }
    requires shared { NamesDiffer shared.now }
    requires places { places.items ≡ words.places_among own.now shared.now }
    ensures { AreAgain own.now shared.now result.items }
{
    let mut places = places;
    places.sort_unstable();
    places.dedup();
    places
}
