// Statements taken apart: what is given where, shapes without their traits, and what traits are applied to.
ghost use Rattle.std.specs.Prelude.{◌≡◌, ◌++◌, IfOk, OnOk};
ghost use Rattle.sm_model.specs.Graphs.{member_id};
ghost use Rattle.sm_model.specs.GivenView.{members_given_view};
ghost use Rattle.sm_tree.specs.View.{pairs_view};
ghost use Rattle.sm_merge.specs.Places.{names_and_targets};
ghost use Rattle.sm_merge.specs.Stated.{apply_stated, shape_stated};
ghost use Rattle.sm_merge.specs.steps.Placed.{ArePartsOf, HasPut, placed_members, placed_view};
ghost use Rattle.sm_merge.specs.steps.Rows.{row_view, rows_view, shape_row_view};

use crate::meaning::joined;
use crate::stated::{ShapeRow, StatedRow};
use sm_ids::ShapeId;
use sm_model::{GraphMember, GraphShape, Kind};
use sm_tree::{NoMemory, Pairs, Text, Tree};
use std::alloc::Global;

/// What statements give, each part in their order.
#[derive(Drop)]
pub(crate) struct Parts {
    /// Traits, under the shape or member at which they are given.
    pub traits: Vec<(Text, Pairs)>,
    /// Metadata by its keys.
    pub metadata: Vec<(Text, Tree)>,
    /// Shapes by their ids.
    pub shapes: Vec<(Text, BareShape)>,
    /// What traits are applied to.
    pub applied: Vec<ShapeId>,
}

/// A shape without its traits.
#[derive(Drop)]
pub(crate) struct BareShape {
    /// Its id.
    pub id: ShapeId,
    /// Its type.
    pub kind: Kind,
    /// The names of its own members with their targets, in order.
    pub members: Vec<(Text, ShapeId)>,
    /// Its body.
    pub properties: Tree,
    /// The ids of its mixins, in order.
    pub mixins: Vec<Text>,
}

/// The parts of all statements.
pub(crate) fn taken_apart(alloc: Global, rows: Vec<StatedRow>) -> Result<Parts, NoMemory>
    ensures { IfOk result (ArePartsOf (rows_view rows.items)) }
{
    let mut parts = Parts {
        traits: Vec::with_capacity(alloc, rows.len())?,
        metadata: Vec::new(alloc),
        shapes: Vec::with_capacity(alloc, rows.len())?,
        applied: Vec::new(alloc),
    };
    for row in rows {
        put_row(alloc, &mut parts, row)?;
    }
    Ok(parts)
}

fn put_row(alloc: Global, parts: &mut Parts, row: StatedRow) -> Result<(), NoMemory>
    ensures { OnOk result (HasPut (row_view row) parts.old parts.new) }
{
    match row {
        StatedRow::Metadata(key, value) => {
            parts.metadata.push((key, value))?;
            Ok(())
        }
        StatedRow::Shape(shape) => put_shape(alloc, parts, shape),
        StatedRow::Apply(id, traits) => put_applied(alloc, parts, id, traits),
    }
}

fn put_applied(alloc: Global, parts: &mut Parts, id: ShapeId, traits: Pairs) -> Result<(), NoMemory>
    ensures { OnOk result (HasPut (apply_stated id (pairs_view traits)) parts.old parts.new) }
{
    let place = Text::copy(alloc, id.as_str())?;
    parts.traits.push((place, traits))?;
    parts.applied.push(id)?;
    Ok(())
}

fn put_shape(alloc: Global, parts: &mut Parts, row: ShapeRow) -> Result<(), NoMemory>
    ensures { OnOk result (HasPut (shape_stated (shape_row_view row)) parts.old parts.new) }
{
    let ShapeRow { shape, mixins } = row;
    let GraphShape {
        id,
        kind,
        members,
        properties,
        traits,
    } = shape;
    let place = Text::copy(alloc, id.as_str())?;
    parts.traits.push((place, traits))?;
    let members = put_members(alloc, &mut parts.traits, id.as_str(), members.into_inner())?;
    let key = Text::copy(alloc, id.as_str())?;
    let bare = BareShape {
        id,
        kind,
        members,
        properties,
        mixins,
    };
    parts.shapes.push((key, bare))?;
    Ok(())
}

// Puts the traits of members, and hands back their names with their targets.
fn put_members(
    alloc: Global,
    traits: &mut Vec<(Text, Pairs)>,
    shape: &str,
    members: Vec<GraphMember>,
) -> Result<Vec<(Text, ShapeId)>, NoMemory>
    ensures members { IfOk result (λ bare. bare.items ≡ names_and_targets (members_given_view members.items)) }
    ensures traits { OnOk result (placed_view traits.new.items
        ≡ placed_view traits.old.items ++ placed_members shape.now (members_given_view members.items)) }
{
    let mut bare = Vec::with_capacity(alloc, members.len())?;
    for member in members {
        let GraphMember {
            name,
            target,
            traits: given,
        } = member;
        traits.push((member_text(alloc, shape, name.as_str())?, given))?;
        bare.push((name, target))?;
    }
    Ok(bare)
}

/// The id of a member.
pub(crate) fn member_text(alloc: Global, shape: &str, name: &str) -> Result<Text, NoMemory>
    ensures { IfOk result (λ id. id ≡ member_id shape.now name.now) }
{
    Ok(Text::new(joined(alloc, shape, "$", name)?))
}
