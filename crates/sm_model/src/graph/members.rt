// The rows of a shape's members, before they have numbers.
ghost use Rattle.std.specs.Prelude.{◌≡◌, IfOk};
ghost use Rattle.sm_ids.specs.Identifier.{IsIdentifier};
ghost use Rattle.sm_ids.specs.IdText.{printed};
ghost use Rattle.sm_ids.specs.View.{id_of};
ghost use Rattle.sm_tree.specs.View.{pairs_view};
ghost use Rattle.sm_model.specs.Formed.{DifferInNames};
ghost use Rattle.sm_model.specs.Given.{AreGivenMembers, are_under, given_names};
ghost use Rattle.sm_model.specs.GivenView.{members_given_view};
ghost use Rattle.sm_model.specs.Graphs.{member_id};
ghost use Rattle.sm_model.specs.References.{IsShapeId};
ghost use Rattle.sm_model.specs.steps.Blocks.{AreMemberRows, IsMemberRow};

use super::given::GraphMember;
use super::sorting::pairs_in_order;
use super::{GraphRow, RowEntry};
use sm_ids::{ShapeId, ShapeIdRef};
use sm_tree::{NoMemory, Pairs, Text};
use std::alloc::Global;

/// The id of a member, borrowed from the shape's id and the member's name. No memory.
pub(crate) fn member_ref<'a>(shape: &'a ShapeId, name: &'a Text) -> ShapeIdRef<'a>
    requires shape { IsShapeId shape.now }
    requires name { IsIdentifier name.now }
    ensures { printed (id_of result) ≡ member_id shape.now name.now }
{
    let shape = shape.as_ref();
    ShapeIdRef {
        namespace: shape.namespace,
        name: shape.name,
        member: Some(name.as_str()),
    }
}

// The row of a member.
fn member_row(
    alloc: Global,
    shape: &ShapeId,
    name: &Text,
    target: ShapeId,
    traits: Pairs,
) -> Result<GraphRow, NoMemory>
    requires shape { IsShapeId shape.now }
    requires name { IsIdentifier name.now }
    requires traits { DifferInNames (are_under (pairs_view traits)) }
    ensures { IfOk result (λ row. IsMemberRow shape.now (record { name = name.now; target = target; traits = pairs_view traits }) row) }
{
    match ShapeId::new(alloc, &member_ref(shape, name)) {
        Ok(id) => Ok(GraphRow {
            id,
            traits: pairs_in_order(traits),
            entry: RowEntry::Member(target),
        }),
        Err(_) => Err(NoMemory),
    }
}

/// The members of a shape: their names and their rows, both in model order.
#[derive(Drop)]
pub(crate) struct MemberRows {
    pub(crate) names: Vec<Text>,
    pub(crate) rows: Vec<GraphRow>,
}

impl MemberRows {
    /// Of the members of the shape with this id.
    pub(crate) fn new(
        alloc: Global,
        shape: &ShapeId,
        members: Vec<GraphMember>,
    ) -> Result<Self, NoMemory>
        requires shape { IsShapeId shape.now }
        requires members { AreGivenMembers (members_given_view members.items) }
        ensures { IfOk result (λ made. (made.names.items ≡ given_names (members_given_view members.items))
            × AreMemberRows shape.now (members_given_view members.items) made.rows.items) }
    {
        let mut names = Vec::with_capacity(alloc, members.len())?;
        let mut rows = Vec::with_capacity(alloc, members.len())?;
        for member in members {
            let GraphMember {
                name,
                target,
                traits,
            } = member;
            rows.push(member_row(alloc, shape, &name, target, traits)?)?;
            names.push(name)?;
        }
        Ok(MemberRows { names, rows })
    }
}
