// The numbers of a shape's members: the places of their rows.
ghost use Rattle.std.specs.Prelude.{◌≡◌, ◌+◌, ◌<◌, ◌^◌, [], IfOk, get_or, length};
ghost use Rattle.sm_ids.specs.Identifier.{IsIdentifier};
ghost use Rattle.sm_model.specs.Formed.{StandsAmong};
ghost use Rattle.sm_model.specs.Graphs.{member_id};
ghost use Rattle.sm_model.specs.GraphRows.{ids_of};
ghost use Rattle.sm_model.specs.References.{IsShapeId};
ghost use Rattle.sm_model.specs.steps.Blocks.{AreNamesIn, AreNumbers};
ghost use Rattle.sm_model.specs.steps.Rising.{Rise};

use super::members::member_ref;
use super::{GraphRow, Numbers};
use sm_ids::ShapeId;
use sm_tree::{NoMemory, Text};
use std::alloc::Global;

// The place of a member among rows in the order of their ids. No memory.
fn place_of(shape: &ShapeId, name: &Text, rows: &[GraphRow]) -> usize
    requires shape { IsShapeId shape.now }
    requires name { IsIdentifier name.now }
    requires rise { Rise (ids_of rows.now) }
    requires there { StandsAmong (member_id shape.now name.now) (ids_of rows.now) }
    ensures within { result < length rows.now }
    ensures place { get_or (ids_of rows.now) result [] ≡ member_id shape.now name.now }
{
    let id = member_ref(shape, name);
    match rows.binary_search_by(|row| row.id.compare(&id)) {
        Ok(place) => place,
        Err(_) => unreachable!(),
    }
}

/// The numbers of a shape's members in model order. `rows` are theirs in the order of their ids, and the first of them has the
/// number `first`.
pub(crate) fn numbers_of(
    alloc: Global,
    first: u32,
    shape: &ShapeId,
    names: &[Text],
    rows: &[GraphRow],
) -> Result<Numbers, NoMemory>
    requires shape { IsShapeId shape.now }
    requires names { AreNamesIn (ids_of rows.now) shape.now names.now }
    requires rise { Rise (ids_of rows.now) }
    requires few { first + length rows.now < 2 ^ 32 }
    ensures { IfOk result (λ numbers. AreNumbers first rows.now shape.now names.now numbers) }
{
    let mut numbers = Vec::with_capacity(alloc, names.len())?;
    for name in names {
        numbers.push(first + place_of(shape, name, rows) as u32)?;
    }
    Ok(Numbers::new(numbers))
}
