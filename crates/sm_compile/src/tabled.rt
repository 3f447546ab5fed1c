// The table of marked shapes: of one shape and all that it reaches, or of all that several reach.
ghost use Rattle.std.specs.Prelude.{◌≡◌, IfOk, length, map};
ghost use Rattle.sm_model.specs.GraphView.{entries_of};
ghost use Rattle.sm_shapes.specs.TableView.{member_data, shape_data, table_data};
ghost use Rattle.sm_compile.specs.Answers.{seen_store};
ghost use Rattle.sm_compile.specs.steps.Making.{IsMade, TablesMarked};
ghost use Rattle.sm_compile.specs.steps.Numbered.{AreClosed};
ghost use Rattle.sm_compile.specs.steps.Placing.{AreParts};
ghost use Rattle.sm_compile.specs.steps.Soundness.{AreSoundBelow};

use crate::compiled::CompileRefusal;
use crate::members::member_rows;
use crate::numbering::tabled_shapes;
use crate::parts::Parts;
use crate::patterns::{CarriedTexts, carried_texts};
use crate::shapes::shape_rows;
use crate::storing::store_all;
use crate::values::values_of_shapes;
use sm_model::Graph;
use sm_shapes::Patterns;
use sm_shapes::tables::{MemberRows, PatternRows, ShapeRows, Table, TableMember, TableShape};
use sm_tree::{NoMemory, Text};
use std::alloc::Global;

/// A table, and the numbers of its shapes in the graph.
#[derive(Drop)]
pub struct Tabled {
    /// The table.
    pub table: Table,
    /// The numbers.
    pub shapes: Vec<u32>,
}

/// The table of the marked shapes that have values, whose patterns are added to the store; or the pattern that the store refuses, or
/// `NoMemory` where memory is refused. n log n in what is marked.
pub(crate) fn compile_marked<P: Patterns>(
    alloc: Global,
    graph: &Graph,
    marks: &[bool],
    patterns: &mut P,
) -> Result<Tabled, CompileRefusal>
    requires whole { length marks.now ≡ length (entries_of graph.now) }
    requires sound { AreSoundBelow graph.now marks.now (length marks.now) }
    requires closed { AreClosed graph.now marks.now }
    ensures { TablesMarked graph.now marks.now
        (seen_store (P.added patterns.old) (P.refused patterns.old) (P.refusals patterns.old))
        (seen_store (P.added patterns.new) (P.refused patterns.new) (P.refusals patterns.new)) result }
{
    let shapes = match tabled_shapes(alloc, graph, marks) {
        Ok(shapes) => shapes,
        Err(_) => return Err(CompileRefusal::NoMemory),
    };
    let carried = match carried_texts(alloc, graph, marks) {
        Ok(carried) => carried,
        Err(_) => return Err(CompileRefusal::NoMemory),
    };
    let rows = match store_all(alloc, graph, &carried, patterns) {
        Ok(rows) => rows,
        Err(refusal) => return Err(refusal),
    };
    match table_of(alloc, graph, shapes.as_slice(), &carried, rows) {
        Ok(table) => Ok(Tabled { table, shapes }),
        Err(_) => Err(CompileRefusal::NoMemory),
    }
}

// The table of these shapes, with these patterns.
fn table_of(
    alloc: Global,
    graph: &Graph,
    shapes: &[u32],
    carried: &CarriedTexts<'_>,
    patterns: Vec<(u32, Text)>,
) -> Result<Table, NoMemory>
    requires { AreParts graph.now shapes.now carried.now patterns.items }
    ensures { IfOk result (λ t. IsMade graph.now shapes.now patterns.items (table_data t)) }
{
    let values = values_of_shapes(alloc, graph, shapes)?;
    let parts = Parts {
        graph,
        shapes,
        carried,
        patterns: patterns.as_slice(),
        values: values.as_slice(),
    };
    let members = member_rows(alloc, &parts)?;
    let rows = shape_rows(alloc, &parts, members.as_slice())?;
    Ok(table_from(rows, members, patterns))
}

fn table_from(
    shapes: Vec<TableShape>,
    members: Vec<TableMember>,
    patterns: Vec<(u32, Text)>,
) -> Table
    ensures shapes { (table_data result).shapes ≡ map shape_data shapes.items }
    ensures members { (table_data result).members ≡ map member_data members.items }
    ensures patterns { (table_data result).patterns ≡ patterns.items }
{
    Table {
        shapes: ShapeRows::new(shapes),
        members: MemberRows::new(members),
        patterns: PatternRows::new(patterns),
    }
}
