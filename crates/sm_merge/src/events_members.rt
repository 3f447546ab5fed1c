// Events for members that are defined again with another target.
ghost use Rattle.std.specs.Prelude.{◌≡◌, ◌∷◌, [], ℕ, List, length, not, IfOk, OnOk};
ghost use Rattle.sm_ids.specs.Identifier.{IsIdentifier};
ghost use Rattle.sm_ids.specs.IdText.{IsShapeId};
ghost use Rattle.sm_merge.specs.steps.EventLists.{TellsMore};
ghost use Rattle.sm_merge.specs.steps.Filling.{all_targets};
ghost use Rattle.sm_merge.specs.steps.Firsts.{targets_view};
ghost use Rattle.sm_merge.specs.steps.MixedIn.{AllBelow, AreBelow};
ghost use Rattle.sm_merge.specs.steps.NamedIds.{AllNamed, AreNamedIds, AreNames, IsNamedRow};
ghost use Rattle.sm_merge.specs.steps.PlaceEvents.{first_among, first_in, is_other, others_among, others_below};

use crate::events::event;
use crate::events_places::id_of_member;
use crate::firsts::NamedTarget;
use crate::mixins::Contributing;
use crate::mixins_once::first_mixins;
use crate::parts::BareShape;
use sm_ids::ShapeId;
use sm_model::ModelEvent;
use sm_tree::{NoMemory, Text};
use std::alloc::Global;
use std::collections::BTreeMap;

/// Puts an event for each member of a mixin or of a shape whose target isn't that of the first of its name.
pub(crate) fn put_member_events(
    alloc: Global,
    rows: &[BareShape],
    mixed: &[Vec<Contributing<'_>>],
    members: &[Vec<NamedTarget<'_>>],
    events: &mut Vec<ModelEvent>,
) -> Result<(), NoMemory>
    requires members { length members.now ≡ length rows.now }
    requires named { AreNamedIds rows.now members.now }
    requires size { length mixed.now ≡ length rows.now }
    requires below { AllBelow (length rows.now) mixed.now }
    ensures { OnOk result (TellsMore events.old.items events.new.items (others_below rows.now mixed.now members.now (length rows.now))) }
{
    for number in 0..rows.len() {
        let mixins = first_mixins(alloc, mixed[number].as_slice())?;
        let firsts = first_targets(alloc, members[number].as_slice())?;
        put_others(
            alloc,
            &rows[number],
            mixins.as_slice(),
            &firsts,
            members,
            events,
        )?;
    }
    Ok(())
}

// Those of one shape: of its mixins, and its own.
fn put_others(
    alloc: Global,
    row: &BareShape,
    mixed: &[Contributing<'_>],
    firsts: &BTreeMap<&str, &ShapeId>,
    all: &[Vec<NamedTarget<'_>>],
    events: &mut Vec<ModelEvent>,
) -> Result<(), NoMemory>
    requires below { AreBelow (length all.now) mixed.now }
    requires row { IsNamedRow row.now }
    requires all { AllNamed all.now }
    ensures { OnOk result (TellsMore events.old.items events.new.items
        (others_among row.now.id (first_in firsts.now) (all_targets all.now mixed.now row.now.members.items))) }
{
    for mixin in mixed {
        let members = all[mixin.number].as_slice();
        put_mixed_others(alloc, &row.id, firsts, members, events)?;
    }
    put_own_others(alloc, &row.id, firsts, row.members.as_slice(), events)?;
    Ok(())
}

fn put_mixed_others(
    alloc: Global,
    shape: &ShapeId,
    firsts: &BTreeMap<&str, &ShapeId>,
    members: &[NamedTarget<'_>],
    events: &mut Vec<ModelEvent>,
) -> Result<(), NoMemory>
    requires shape { IsShapeId shape.now }
    requires names { AreNames (targets_view members.now) }
    ensures { OnOk result (TellsMore events.old.items events.new.items
        (others_among shape.now (first_in firsts.now) (targets_view members.now))) }
{
    for member in members {
        put_if_other(alloc, shape, firsts, member.name, member.target, events)?;
    }
    Ok(())
}

fn put_own_others(
    alloc: Global,
    shape: &ShapeId,
    firsts: &BTreeMap<&str, &ShapeId>,
    members: &[(Text, ShapeId)],
    events: &mut Vec<ModelEvent>,
) -> Result<(), NoMemory>
    requires shape { IsShapeId shape.now }
    requires names { AreNames members.now }
    ensures { OnOk result (TellsMore events.old.items events.new.items (others_among shape.now (first_in firsts.now) members.now)) }
{
    for (name, target) in members {
        put_if_other(alloc, shape, firsts, name.as_str(), target, events)?;
    }
    Ok(())
}

fn put_if_other(
    alloc: Global,
    shape: &ShapeId,
    firsts: &BTreeMap<&str, &ShapeId>,
    name: &str,
    target: &ShapeId,
    events: &mut Vec<ModelEvent>,
) -> Result<(), NoMemory>
    requires shape { IsShapeId shape.now }
    requires name { IsIdentifier name.now }
    ensures { OnOk result (TellsMore events.old.items events.new.items
        (others_among shape.now (first_in firsts.now) ((name.now, target.now) ∷ []))) }
{
    if is_first(firsts, name, target) {
        return Ok(());
    }
    let member = id_of_member(alloc, shape, name)?;
    let event = event(alloc, member, "Model.Member", target.as_str())?;
    events.push(event)?;
    Ok(())
}

// Whether no first target of this name is another one.
fn is_first(firsts: &BTreeMap<&str, &ShapeId>, name: &str, target: &ShapeId) -> bool
    ensures { result ≡ not (is_other (first_in firsts.now name.now) target.now) }
{
    match firsts.get(name) {
        None => true,
        Some(first) => first.as_str() == target.as_str(),
    }
}

// The target of each name that stands first.
fn first_targets<'a>(
    alloc: Global,
    members: &[NamedTarget<'a>],
) -> Result<BTreeMap<&'a str, &'a ShapeId>, NoMemory>
    ensures { IfOk result (λ firsts. (name : List ℕ) → first_in firsts name ≡ first_among (targets_view members.now) name) }
{
    let mut firsts: BTreeMap<&'a str, &'a ShapeId> = BTreeMap::new(alloc);
    let mut left = members.len();
    while left > 0 {
        left -= 1;
        let member = members[left];
        firsts.insert(member.name, member.target)?;
    }
    Ok(firsts)
}
