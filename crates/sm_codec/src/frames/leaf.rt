// What a leaf comes to at a place: what the convention makes of it, and then the first constraint that its value breaks.
ghost use Rattle.std.specs.Prelude.{◌≡◌, IfOk};
ghost use Rattle.sm_tree.specs.View.{node_of};
ghost use Rattle.sm_shapes.specs.Broken.{first_broken};
ghost use Rattle.sm_shapes.specs.InOrder.{Shaped, AreStored};
ghost use Rattle.sm_shapes.specs.TableView.{table_data};
ghost use Rattle.sm_shapes.specs.ValueView.{val_of};
ghost use Rattle.sm_codec.specs.Codec.{broken_in, InTable};
ghost use Rattle.sm_codec.specs.FaultLists.{here, settled};
ghost use Rattle.sm_codec.specs.FrameView.{arrival_of, outcome_of};
ghost use Rattle.sm_codec.specs.Kept.{IsOutcome};
ghost use Rattle.sm_codec.specs.Named.{is_null};
ghost use Rattle.sm_codec.specs.PlaceView.{place_of};
ghost use Rattle.sm_codec.specs.Readings.{leaf_in};
ghost use Rattle.sm_codec.specs.steps.Arrivals.{IsArrival, comes};

use super::faults::fault_here;
use super::{Arrival, Outcome};
use crate::places::ValuePlace;
use crate::{LeafRefusal, Leaves};
use sm_shapes::tables::Table;
use sm_shapes::values::Value;
use sm_shapes::{FaultKind, Patterns};
use sm_tree::{NoMemory, Tree};
use std::alloc::Global;

// The first constraint of a place that a value breaks. The store isn't changed.
fn first_broken<P: Patterns>(
    table: &Table,
    place: ValuePlace,
    value: &Value,
    patterns: &mut P,
) -> Result<Option<FaultKind>, NoMemory>
    requires shaped { Shaped (table_data table.now) }
    requires place { InTable (table_data table.now) (place_of place) }
    requires stored { AreStored (table_data table.now).patterns (P.added patterns.old) }
    ensures first { IfOk result (λ first. first ≡ first_broken
        (broken_in (table_data table.now) P.test (place_of place) (val_of value.now))) }
    ensures added { P.added patterns.new ≡ P.added patterns.old }
    ensures refused { P.refused patterns.new ≡ P.refused patterns.old }
    ensures refusals { P.refusals patterns.new ≡ P.refusals patterns.old }
{
    place
        .constraints(table)
        .judge(table, place.kind(table), value, patterns)
}

// A value that the convention makes of a leaf, where it breaks no constraint.
fn judged<P: Patterns>(
    alloc: Global,
    table: &Table,
    place: ValuePlace,
    value: Value,
    patterns: &mut P,
) -> Result<Outcome, NoMemory>
    requires shaped { Shaped (table_data table.now) }
    requires place { InTable (table_data table.now) (place_of place) }
    requires stored { AreStored (table_data table.now).patterns (P.added patterns.old) }
    ensures outcome { IfOk result (λ outcome. IsOutcome (settled
        (here (broken_in (table_data table.now) P.test (place_of place) (val_of value))) (val_of value)) (outcome_of outcome)) }
    ensures added { P.added patterns.new ≡ P.added patterns.old }
    ensures refused { P.refused patterns.new ≡ P.refused patterns.old }
    ensures refusals { P.refusals patterns.new ≡ P.refusals patterns.old }
{
    match first_broken(table, place, &value, patterns) {
        Ok(None) => Ok(Outcome::Good(value)),
        Ok(Some(kind)) => Ok(Outcome::Bad(fault_here(alloc, kind))),
        Err(refusal) => Err(refusal),
    }
}

/// What a leaf comes to at a place: its value, or its first fault. The store isn't changed.
pub(crate) fn read_leaf<L: Leaves, P: Patterns>(
    alloc: Global,
    table: &Table,
    place: ValuePlace,
    leaf: &Tree,
    leaves: &L,
    patterns: &mut P,
) -> Result<Outcome, NoMemory>
    requires shaped { Shaped (table_data table.now) }
    requires place { InTable (table_data table.now) (place_of place) }
    requires stored { AreStored (table_data table.now).patterns (P.added patterns.old) }
    ensures outcome { IfOk result (λ outcome. IsOutcome (leaf_in (table_data table.now) (L.convention leaves.now) P.test (place_of place)
        (node_of leaf.now)) (outcome_of outcome)) }
    ensures added { P.added patterns.new ≡ P.added patterns.old }
    ensures refused { P.refused patterns.new ≡ P.refused patterns.old }
    ensures refusals { P.refusals patterns.new ≡ P.refusals patterns.old }
{
    match place.simple(table) {
        None => Ok(Outcome::Bad(fault_here(alloc, FaultKind::WrongType))),
        Some(simple) => match leaves.read(alloc, simple, leaf) {
            Ok(value) => judged(alloc, table, place, value, patterns),
            Err(LeafRefusal::Fault(kind)) => Ok(Outcome::Bad(fault_here(alloc, kind))),
            Err(LeafRefusal::NoMemory) => Err(NoMemory),
        },
    }
}

// Whether a tree is null.
fn is_null(tree: &Tree) -> bool
    ensures { result ≡ is_null (node_of tree.now) }
{
    match tree {
        Tree::Null => true,
        Tree::Bool(_) => false,
        Tree::Int(_) => false,
        Tree::Number(_) => false,
        Tree::Text(_) => false,
        Tree::Bytes(_) => false,
        Tree::Tag(_, _) => false,
        Tree::Opaque(_) => false,
        Tree::List(_) => false,
        Tree::Object(_) => false,
    }
}

impl Outcome {
    // What it is as a frame is told of a tree that isn't null.
    pub(crate) fn arrives(self) -> Arrival
        ensures { arrival_of result ≡ comes (outcome_of self) }
    {
        match self {
            Outcome::Good(value) => Arrival::Value(value),
            Outcome::Bad(fault) => Arrival::Fault(fault),
        }
    }
}

/// What a leaf is at a place, as a frame is told of it. The store isn't changed.
pub(crate) fn leaf_arrives<L: Leaves, P: Patterns>(
    alloc: Global,
    table: &Table,
    place: ValuePlace,
    leaf: &Tree,
    leaves: &L,
    patterns: &mut P,
) -> Result<Arrival, NoMemory>
    requires shaped { Shaped (table_data table.now) }
    requires place { InTable (table_data table.now) (place_of place) }
    requires stored { AreStored (table_data table.now).patterns (P.added patterns.old) }
    ensures arrival { IfOk result (λ arrival. IsArrival (is_null (node_of leaf.now))
        (leaf_in (table_data table.now) (L.convention leaves.now) P.test (place_of place) (node_of leaf.now)) (arrival_of arrival)) }
    ensures added { P.added patterns.new ≡ P.added patterns.old }
    ensures refused { P.refused patterns.new ≡ P.refused patterns.old }
    ensures refusals { P.refusals patterns.new ≡ P.refusals patterns.old }
{
    if is_null(leaf) {
        return Ok(Arrival::Null);
    }
    match read_leaf(alloc, table, place, leaf, leaves, patterns) {
        Ok(outcome) => Ok(outcome.arrives()),
        Err(refusal) => Err(refusal),
    }
}
