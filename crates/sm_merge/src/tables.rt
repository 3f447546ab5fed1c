// The tables that a graph is made from.
ghost use Rattle.std.specs.Prelude.{IfOk};
ghost use Rattle.sm_merge.specs.Files.{files_view};
ghost use Rattle.sm_merge.specs.Stated.{AreFormedFiles, stated_by};
ghost use Rattle.sm_merge.specs.steps.AllTables.{AreTablesOf};

use crate::parts::{Parts, taken_apart};
use crate::shapes::{Shapes, shape_table};
use crate::stated::stated;
use crate::table::{NamedValue, PlaceRow, named_values, place_rows};
use sm_ids::ShapeId;
use sm_model::Statement;
use sm_tree::NoMemory;
use sm_tree::laws::same_to_itself;
use std::alloc::Global;

/// What the statements of all files give.
#[derive(Drop)]
pub(crate) struct Tables {
    /// Traits by the shapes and members at which they are given.
    pub traits: Vec<PlaceRow>,
    /// Metadata by its keys.
    pub metadata: Vec<NamedValue>,
    /// Shapes by their ids.
    pub shapes: Shapes,
    /// What traits are applied to, in the order of the statements.
    pub applied: Vec<ShapeId>,
}

/// The tables of these files.
pub(crate) fn tables_of(alloc: Global, files: &[Vec<Statement>]) -> Result<Tables, NoMemory>
    requires { AreFormedFiles (files_view files.now) }
    ensures { IfOk result (AreTablesOf (stated_by (files_view files.now))) }
{
    same_to_itself();
    let parts = taken_apart(alloc, stated(alloc, files)?)?;
    let Parts {
        traits: lists,
        metadata: pairs,
        shapes: bare,
        applied,
    } = parts;
    let traits = place_rows(alloc, lists)?;
    let metadata = named_values(alloc, pairs)?;
    let shapes = shape_table(alloc, bare)?;
    Ok(Tables {
        traits,
        metadata,
        shapes,
        applied,
    })
}
