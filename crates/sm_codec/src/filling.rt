// Defaults that count, put into a table: those whose nodes have no fault for their members.
ghost use Rattle.std.specs.Prelude.{◌≡◌, ◌<◌, List, Some, false, slice_get, IfOk, OnOk, OnErr};
ghost use Rattle.std.specs.Option.{option_map};
ghost use Rattle.sm_tree.specs.View.{node_of};
ghost use Rattle.sm_shapes.specs.Broken.{first_broken};
ghost use Rattle.sm_shapes.specs.ConstraintView.{constraint_data};
ghost use Rattle.sm_shapes.specs.DefaultPuts.{HasNoDefault, defaults_view};
ghost use Rattle.sm_shapes.specs.Fitting.{finder};
ghost use Rattle.sm_shapes.specs.InOrder.{Shaped, AreStored, NamesPattern};
ghost use Rattle.sm_shapes.specs.TableData.{shape_count, member_count, kind_at, default_node_at};
ghost use Rattle.sm_shapes.specs.TableView.{member_data, table_data};
ghost use Rattle.sm_shapes.specs.ValueView.{val_of};
ghost use Rattle.sm_codec.specs.Conventions.{node_read};
ghost use Rattle.sm_codec.specs.Defaults.{node_codec, counted_default, filled};
ghost use Rattle.sm_codec.specs.FilledLaws.{IsFilled};
ghost use Rattle.sm_codec.specs.steps.Filling.{counted_defaults, empty_default, value_read, unjudged, unless_broken, judged};

use crate::places::simple_of;
use crate::{LeafRefusal, Leaves, NodeLeaves, Simple};
use sm_shapes::constraints::Constraints;
use sm_shapes::kinds::ShapeKind;
use sm_shapes::tables::{Table, TableMember};
use sm_shapes::values::{Entries, Items, Value};
use sm_shapes::{FaultKind, Patterns};
use sm_time::Format;
use sm_tree::{NoMemory, Tree};
use std::alloc::Global;

/// Sets the default of each member exactly where it counts: its node has no fault for the member, by the convention of nodes with blobs in
/// base64. No default may be set before, and the store must have the table's patterns. Nothing else of the table is changed, and nothing
/// at all where memory runs out.
pub fn fill_defaults<P: Patterns>(
    alloc: Global,
    table: &mut Table,
    patterns: &mut P,
) -> Result<(), NoMemory>
    requires shaped { Shaped (table_data table.old) }
    requires none { HasNoDefault (table_data table.old) }
    requires stored { AreStored (table_data table.old).patterns (P.added patterns.old) }
    ensures filled { OnOk result (table_data table.new ≡ filled (table_data table.old) P.test) }
    ensures in_order { OnOk result (IsFilled (table_data table.new) P.test) }
    ensures unchanged { OnErr result (table_data table.new ≡ table_data table.old) }
    ensures added { P.added patterns.new ≡ P.added patterns.old }
    ensures refused { P.refused patterns.new ≡ P.refused patterns.old }
    ensures refusals { P.refusals patterns.new ≡ P.refusals patterns.old }
{
    match defaults_of(alloc, table, patterns) {
        Ok(defaults) => {
            table.set_defaults(defaults);
            Ok(())
        }
        Err(refusal) => Err(refusal),
    }
}

// The default of each member that counts, by the members' numbers.
fn defaults_of<P: Patterns>(
    alloc: Global,
    table: &Table,
    patterns: &mut P,
) -> Result<Vec<Option<Value>>, NoMemory>
    requires shaped { Shaped (table_data table.now) }
    requires stored { AreStored (table_data table.now).patterns (P.added patterns.old) }
    ensures defaults { IfOk result (λ all. defaults_view all.items ≡ counted_defaults (node_codec (table_data table.now) P.test) 0
        (table_data table.now).members) }
    ensures added { P.added patterns.new ≡ P.added patterns.old }
    ensures refused { P.refused patterns.new ≡ P.refused patterns.old }
    ensures refusals { P.refusals patterns.new ≡ P.refusals patterns.old }
{
    let count = table.members.as_slice().len();
    let mut defaults = Vec::with_capacity(alloc, count)?;
    for number in 0..count {
        let default = default_of(alloc, table, number, patterns)?;
        defaults.push(default)?;
    }
    Ok(defaults)
}

// The default of one member that counts.
fn default_of<P: Patterns>(
    alloc: Global,
    table: &Table,
    number: usize,
    patterns: &mut P,
) -> Result<Option<Value>, NoMemory>
    requires shaped { Shaped (table_data table.now) }
    requires number { number < member_count (table_data table.now) }
    requires stored { AreStored (table_data table.now).patterns (P.added patterns.old) }
    ensures default { IfOk result (λ found. option_map val_of found
        ≡ counted_default (node_codec (table_data table.now) P.test) number (default_node_at (table_data table.now) number)) }
    ensures added { P.added patterns.new ≡ P.added patterns.old }
    ensures refused { P.refused patterns.new ≡ P.refused patterns.old }
    ensures refusals { P.refusals patterns.new ≡ P.refusals patterns.old }
{
    let row = row_at(table, number);
    match &row.default_node {
        None => Ok(None),
        Some(node) => counted(alloc, table, row, node, patterns),
    }
}

// The member with this number.
fn row_at(table: &Table, number: usize) -> &TableMember
    requires { number < member_count (table_data table.now) }
    ensures { slice_get (table_data table.now).members number ≡ Some (member_data result.now) }
{
    &table.members.as_slice()[number]
}

// The value of a default's node, if it has no fault.
fn counted<P: Patterns>(
    alloc: Global,
    table: &Table,
    row: &TableMember,
    node: &Tree,
    patterns: &mut P,
) -> Result<Option<Value>, NoMemory>
    requires target { row.now.target < shape_count (table_data table.now) }
    requires named { NamesPattern (table_data table.now) (constraint_data row.now.constraints).pattern }
    requires stored { AreStored (table_data table.now).patterns (P.added patterns.old) }
    ensures counted { IfOk result (λ found. option_map val_of found
        ≡ judged (finder (table_data table.now) P.test) (kind_at (table_data table.now) row.now.target) (constraint_data row.now.constraints)
        (unjudged (kind_at (table_data table.now) row.now.target) row.now.format (node_of node.now))) }
    ensures added { P.added patterns.new ≡ P.added patterns.old }
    ensures refused { P.refused patterns.new ≡ P.refused patterns.old }
    ensures refusals { P.refusals patterns.new ≡ P.refusals patterns.old }
{
    let kind = table.kind(row.target);
    match read_default(alloc, kind, row.format, node) {
        Ok(Some(value)) => keep_default(table, kind, &row.constraints, value, patterns),
        Ok(None) => Ok(None),
        Err(refusal) => Err(refusal),
    }
}

// The value of a default's node at a shape of this kind, which may still break constraints.
fn read_default(
    alloc: Global,
    kind: ShapeKind,
    format: Option<Format>,
    node: &Tree,
) -> Result<Option<Value>, NoMemory>
    ensures { IfOk result (λ found. option_map val_of found ≡ unjudged kind format (node_of node.now)) }
{
    match simple_of(kind, format) {
        Some(simple) => read_simple(alloc, simple, node),
        None => Ok(empty_default(alloc, kind, node)),
    }
}

fn read_simple(alloc: Global, simple: Simple, node: &Tree) -> Result<Option<Value>, NoMemory>
    ensures { IfOk result (λ found. option_map val_of found ≡ value_read (node_read false simple (node_of node.now))) }
{
    let leaves = NodeLeaves { raw_blobs: false };
    match leaves.read(alloc, simple, node) {
        Ok(value) => Ok(Some(value)),
        Err(LeafRefusal::Fault(_)) => Ok(None),
        Err(LeafRefusal::NoMemory) => Err(NoMemory),
    }
}

// An empty list or map, where the node of one stands at a shape of its kind. No memory.
fn empty_default(alloc: Global, kind: ShapeKind, node: &Tree) -> Option<Value>
    ensures { option_map val_of result ≡ empty_default kind (node_of node.now) }
{
    match kind {
        ShapeKind::List => match node {
            Tree::List(_) => Some(Value::List(Items::new(Vec::new(alloc)))),
            _ => None,
        },
        ShapeKind::Map => match node {
            Tree::Object(_) => Some(Value::Map(Entries::new(Vec::new(alloc)))),
            _ => None,
        },
        _ => None,
    }
}

// The value, if it breaks nothing.
fn keep_default<P: Patterns>(
    table: &Table,
    kind: ShapeKind,
    constraints: &Constraints,
    value: Value,
    patterns: &mut P,
) -> Result<Option<Value>, NoMemory>
    requires named { NamesPattern (table_data table.now) (constraint_data constraints.now).pattern }
    requires stored { AreStored (table_data table.now).patterns (P.added patterns.old) }
    ensures kept { IfOk result (λ found. option_map val_of found
        ≡ judged (finder (table_data table.now) P.test) kind (constraint_data constraints.now) (Some (val_of value))) }
    ensures added { P.added patterns.new ≡ P.added patterns.old }
    ensures refused { P.refused patterns.new ≡ P.refused patterns.old }
    ensures refusals { P.refusals patterns.new ≡ P.refusals patterns.old }
{
    match constraints.judge(table, kind, &value, patterns) {
        Ok(found) => Ok(unless_broken(found, value)),
        Err(refusal) => Err(refusal),
    }
}

// The value, unless a fault was found.
#[tactic(auto, using(crate::proofs::DefaultsCounted::kept_where, crate::proofs::DefaultsCounted::kept_nowhere))]
fn unless_broken(found: Option<FaultKind>, value: Value) -> Option<Value>
    ensures { (kinds : List FaultKind) → found ≡ first_broken kinds → option_map val_of result ≡ unless_broken kinds (val_of value) }
{
    match found {
        None => Some(value),
        Some(_) => None,
    }
}
