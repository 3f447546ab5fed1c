// Patterns are added to a store, each text once, and the rows of a table's patterns are made.
ghost use Rattle.std.specs.Prelude.{◌≡◌, IfOk};
ghost use Rattle.sm_model.specs.GraphView.{AreShapeNumbers, IsShapeNumber};
ghost use Rattle.sm_model.specs.Reaching.{id_of_number};
ghost use Rattle.sm_compile.specs.Answers.{seen_store};
ghost use Rattle.sm_compile.specs.steps.Carrying.{carriers_of, rows_in};
ghost use Rattle.sm_compile.specs.steps.Storing.{StoresAll, StoresText, stop_of};

use crate::compiled::CompileRefusal;
use crate::patterns::{CarriedTexts, FirstCarrier};
use sm_ids::ShapeId;
use sm_model::Graph;
use sm_shapes::{PatternRefusal, Patterns};
use sm_tree::{NoMemory, Text};
use std::alloc::Global;

/// Adds patterns to a store, in order, and makes their rows. `Pattern` with the first carrier of the one that the store refuses; then
/// those before it are added. Where memory runs out, some of the first ones are.
pub(crate) fn store_all<P: Patterns>(
    alloc: Global,
    graph: &Graph,
    carried: &CarriedTexts<'_>,
    patterns: &mut P,
) -> Result<Vec<(u32, Text)>, CompileRefusal>
    requires { AreShapeNumbers graph.now (carriers_of (rows_in carried.now)) }
    ensures { StoresAll graph.now (rows_in carried.now)
        (seen_store (P.added patterns.old) (P.refused patterns.old) (P.refusals patterns.old))
        (seen_store (P.added patterns.new) (P.refused patterns.new) (P.refusals patterns.new)) result }
{
    let mut rows = Vec::new(alloc);
    for first in carried.firsts.as_slice() {
        match store_text(alloc, graph, *first, &mut rows, patterns) {
            Ok(()) => {}
            Err(refusal) => return Err(refusal),
        }
    }
    Ok(rows)
}

// Adds one, and makes its row. What a refusal and a row want is there before: a store that has refused a text has no way back.
fn store_text<P: Patterns>(
    alloc: Global,
    graph: &Graph,
    first: FirstCarrier<'_>,
    rows: &mut Vec<(u32, Text)>,
    patterns: &mut P,
) -> Result<(), CompileRefusal>
    requires { IsShapeNumber graph.now first.number }
    ensures { StoresText (id_of_number graph.now first.entry.number) first.entry.text.now
        (seen_store (P.added patterns.old) (P.refused patterns.old) (P.refusals patterns.old))
        (seen_store (P.added patterns.new) (P.refused patterns.new) (P.refusals patterns.new))
        rows.old.items rows.new.items result }
{
    let carrier = match copied_id(alloc, graph, first.number) {
        Ok(carrier) => carrier,
        Err(_) => return Err(CompileRefusal::NoMemory),
    };
    let text = match Text::copy(alloc, first.text) {
        Ok(text) => text,
        Err(_) => return Err(CompileRefusal::NoMemory),
    };
    match patterns.add(first.text) {
        Ok(number) => match rows.push((number, text)) {
            Ok(()) => Ok(()),
            Err(_) => Err(CompileRefusal::NoMemory),
        },
        Err(refusal) => Err(refused(refusal, carrier)),
    }
}

// What a store's refusal comes to.
fn refused(refusal: PatternRefusal, carrier: ShapeId) -> CompileRefusal
    ensures { result ≡ stop_of refusal carrier }
{
    match refusal {
        PatternRefusal::Refused => CompileRefusal::Pattern(carrier),
        PatternRefusal::NoMemory => CompileRefusal::NoMemory,
    }
}

// A copy of the id that stands at a number.
fn copied_id(alloc: Global, graph: &Graph, number: u32) -> Result<ShapeId, NoMemory>
    requires { IsShapeNumber graph.now number }
    ensures { IfOk result (λ copy. copy ≡ id_of_number graph.now number) }
{
    match ShapeId::new(alloc, &graph.id(number).as_ref()) {
        Ok(copy) => Ok(copy),
        Err(_) => Err(NoMemory),
    }
}
