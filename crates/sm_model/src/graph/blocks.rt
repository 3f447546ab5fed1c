// The rows of a shape and of its members, which stand one after the other: a member's id is its shape's and more, and comes
// before the id of every later shape.
ghost use Rattle.std.specs.Prelude.{◌+◌, ◌<◌, ◌^◌, IfOk, OnOk, length, vec_len};
ghost use Rattle.sm_model.specs.Formed.{DifferInNames};
ghost use Rattle.sm_model.specs.Given.{AreGivenMembers, IsGivenShape, given_names};
ghost use Rattle.sm_model.specs.GivenView.{members_given_view, shape_given_view};
ghost use Rattle.sm_model.specs.Graphs.{given_shape};
ghost use Rattle.sm_model.specs.References.{IsShapeId};
ghost use Rattle.sm_model.specs.steps.Blocks.{IsMemberBlock, PutsBlock};

use super::given::{GraphMember, GraphShape};
use super::members::MemberRows;
use super::numbers::numbers_of;
use super::sorting::{pairs_in_order, rows_in_order};
use super::{GraphRow, Numbers, RowEntry, ShapeRow};
use sm_ids::ShapeId;
use sm_tree::NoMemory;
use std::alloc::Global;

// The members of a shape: their numbers in model order, and their rows in the order of their ids.
#[derive(Drop)]
struct MemberBlock {
    numbers: Numbers,
    rows: Vec<GraphRow>,
}

impl MemberBlock {
    // Of the members of the shape with this id. Their first row is to have the number `first`.
    fn new(
        alloc: Global,
        first: u32,
        shape: &ShapeId,
        members: Vec<GraphMember>,
    ) -> Result<Self, NoMemory>
        requires shape { IsShapeId shape.now }
        requires members { AreGivenMembers (members_given_view members.items) }
        requires differ { DifferInNames (given_names (members_given_view members.items)) }
        requires few { first + length members.items < 2 ^ 32 }
        ensures { IfOk result (λ b. IsMemberBlock first shape.now (members_given_view members.items) b.numbers b.rows.items) }
    {
        let MemberRows { names, rows } = MemberRows::new(alloc, shape, members)?;
        let rows = rows_in_order(rows);
        let numbers = numbers_of(alloc, first, shape, names.as_slice(), rows.as_slice())?;
        Ok(MemberBlock { numbers, rows })
    }
}

/// Appends the rows of a shape and of its members.
pub(crate) fn put_block(
    alloc: Global,
    rows: &mut Vec<GraphRow>,
    shape: GraphShape,
) -> Result<(), NoMemory>
    requires given { IsGivenShape (shape_given_view shape) }
    requires few { vec_len rows.old + length (given_shape (shape_given_view shape)) < 2 ^ 32 }
    ensures { OnOk result (PutsBlock (shape_given_view shape) rows.old.items rows.new.items) }
{
    let GraphShape {
        id,
        kind,
        members,
        properties,
        traits,
    } = shape;
    let first = rows.len() as u32 + 1;
    let MemberBlock {
        numbers,
        rows: mut member_rows,
    } = MemberBlock::new(alloc, first, &id, members.into_inner())?;
    let entry = RowEntry::Shape(ShapeRow {
        kind,
        members: numbers,
        properties,
    });
    let traits = pairs_in_order(traits);
    rows.push(GraphRow { id, traits, entry })?;
    rows.append(&mut member_rows)?;
    Ok(())
}
