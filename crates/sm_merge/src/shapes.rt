// The shapes that files define, by their ids: the first statement of a shape stays.
ghost use Rattle.std.specs.Prelude.{◌≡◌, ◌↔◌, ◌++◌, ◌∷◌, IfOk, IsTrue, OnOk};
ghost use Rattle.sm_tree.specs.Same.{IsNode};
ghost use Rattle.sm_tree.specs.Size.{node_size};
ghost use Rattle.sm_tree.specs.View.{node_of};
ghost use Rattle.sm_bytes.specs.Lengths.{length_word};
ghost use Rattle.sm_groups.specs.Groups.{group_view};
ghost use Rattle.sm_merge.specs.steps.Placed.{bare_view};
ghost use Rattle.sm_merge.specs.steps.ShapeTables.{AgreeBare, all_bare, AreAlike, AreSoundRows, AreSoundUnder, AreWrong, kept_of};
ghost use Rattle.sm_merge.specs.steps.ShapeTables.{AreShapesFrom, PutsIf, SomeDiffer};

use crate::parts::BareShape;
use crate::stated::copied_id;
use crate::value::are_same;
use sm_groups::{Group, by_key};
use sm_ids::ShapeId;
use sm_model::is_in_prelude;
use sm_tree::{NoMemory, Text, tree_size};
use std::alloc::Global;

/// Shapes, and ids of which statements say different things.
#[derive(Drop)]
pub(crate) struct Shapes {
    /// The shapes, in the order of their ids, each once, and none of the prelude.
    pub rows: Vec<BareShape>,
    /// Ids that are stated again otherwise, or are the prelude's.
    pub wrong: Vec<ShapeId>,
}

/// The shapes of statements.
pub(crate) fn shape_table(alloc: Global, rows: Vec<(Text, BareShape)>) -> Result<Shapes, NoMemory>
    requires { AreSoundRows rows.items }
    ensures { IfOk result (AreShapesFrom rows.items) }
{
    let groups = by_key(alloc, rows)?;
    let mut shapes = Shapes {
        rows: Vec::with_capacity(alloc, groups.len())?,
        wrong: Vec::new(alloc),
    };
    for group in groups {
        put_group(alloc, &mut shapes, group)?;
    }
    Ok(shapes)
}

fn put_group(alloc: Global, shapes: &mut Shapes, group: Group<BareShape>) -> Result<(), NoMemory>
    requires { AreSoundUnder group.key (group.first ∷ group.more.items) }
    ensures rows { OnOk result (shapes.new.rows.items ≡ shapes.old.rows.items ++ kept_of (group_view group)) }
    ensures wrong { OnOk result (PutsIf (AreWrong group.key (bare_view group.first ∷ all_bare group.more.items)) group.key
        shapes.old.wrong.items shapes.new.wrong.items) }
{
    let Group { key, first, more } = group;
    put_wrong(alloc, &mut shapes.wrong, &first, more.as_slice())?;
    if !is_in_prelude(key.as_str()) {
        shapes.rows.push(first)?;
    }
    Ok(())
}

// Puts the id where something is wrong with it.
fn put_wrong(
    alloc: Global,
    wrong: &mut Vec<ShapeId>,
    first: &BareShape,
    more: &[BareShape],
) -> Result<(), NoMemory>
    requires { AreSoundUnder first.now.id (first.now ∷ more.now) }
    ensures { OnOk result (PutsIf (AreWrong first.now.id (bare_view first.now ∷ all_bare more.now)) first.now.id
        wrong.old.items wrong.new.items) }
{
    if is_wrong(alloc, first, more)? {
        wrong.push(copied_id(alloc, &first.id)?)?;
    }
    Ok(())
}

fn is_wrong(alloc: Global, first: &BareShape, more: &[BareShape]) -> Result<bool, NoMemory>
    requires { AreSoundUnder first.now.id (first.now ∷ more.now) }
    ensures { IfOk result (λ wrong. IsTrue wrong ↔ AreWrong first.now.id (bare_view first.now ∷ all_bare more.now)) }
{
    if is_in_prelude(first.id.as_str()) {
        return Ok(true);
    }
    some_differ(alloc, first, more)
}

// Whether some shape doesn't agree with the first.
fn some_differ(alloc: Global, first: &BareShape, more: &[BareShape]) -> Result<bool, NoMemory>
    requires { AreSoundUnder first.now.id (first.now ∷ more.now) }
    ensures { IfOk result (λ differ. IsTrue differ ↔ SomeDiffer (bare_view first.now) (all_bare more.now)) }
{
    let size = tree_size(&first.properties);
    for other in more {
        if !agree(alloc, first, size, other)? {
            return Ok(true);
        }
    }
    Ok(false)
}

// Whether two shapes say the same. The first body's size is told, so that it isn't counted for each.
fn agree(alloc: Global, a: &BareShape, size: u64, b: &BareShape) -> Result<bool, NoMemory>
    requires a { IsNode (node_of a.now.properties) }
    requires b { IsNode (node_of b.now.properties) }
    requires size { size ≡ length_word (node_size (node_of a.now.properties)) }
    ensures { IfOk result (λ same. IsTrue same ↔ AgreeBare (bare_view a.now) (bare_view b.now)) }
{
    if !are_alike(a, b) {
        return Ok(false);
    }
    let other = tree_size(&b.properties);
    are_same(alloc, &a.properties, size, &b.properties, other)
}

// Whether two shapes are alike in their types, members and mixins.
fn are_alike(a: &BareShape, b: &BareShape) -> bool
    ensures { IsTrue result ↔ AreAlike (bare_view a.now) (bare_view b.now) }
{
    if a.kind != b.kind {
        return false;
    }
    if !are_same_members(a.members.as_slice(), b.members.as_slice()) {
        return false;
    }
    are_same_texts(a.mixins.as_slice(), b.mixins.as_slice())
}

fn are_same_members(a: &[(Text, ShapeId)], b: &[(Text, ShapeId)]) -> bool
    ensures { IsTrue result ↔ (a.now ≡ b.now) }
{
    a == b
}

fn are_same_texts(a: &[Text], b: &[Text]) -> bool
    ensures { IsTrue result ↔ (a.now ≡ b.now) }
{
    a == b
}
