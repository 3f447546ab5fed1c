// Events for values in conflict at shapes and members that are there, and for traits that are applied to what isn't.
ghost use Rattle.std.specs.Prelude.{◌≡◌, ◌||◌, ◌++◌, ◌∷◌, [], ℕ, List, length, map, IfOk, IsTrue, OnOk};
ghost use Rattle.std.specs.List.{list_any};
ghost use Rattle.std.specs.Str.{bytes_eq};
ghost use Rattle.sm_ids.specs.Identifier.{IsIdentifier};
ghost use Rattle.sm_ids.specs.IdText.{IsShapeId};
ghost use Rattle.sm_ids.specs.TextParts.{member_id};
ghost use Rattle.sm_model.specs.steps.Rising.{Rise};
ghost use Rattle.sm_merge.specs.steps.EventLists.{TellsMore};
ghost use Rattle.sm_merge.specs.steps.Firsts.{targets_view};
ghost use Rattle.sm_merge.specs.steps.Known.{has_text};
ghost use Rattle.sm_merge.specs.steps.NamedIds.{AreNamedIds, AreNames};
ghost use Rattle.sm_merge.specs.steps.PlaceEvents.{applied_events, events_at, have_conflict, place_conflicts, places_below, some_conflict};
ghost use Rattle.sm_merge.specs.steps.Tables.{places_in};

use crate::firsts::NamedTarget;
use crate::look::traits_at;
use crate::parts::BareShape;
use crate::stated::copied_id;
use crate::table::{NamedValue, PlaceRow};
use crate::told::{put_applied_event, put_trait_events};
use sm_ids::ShapeId;
use sm_model::ModelEvent;
use sm_tree::NoMemory;
use std::alloc::Global;
use std::collections::BTreeSet;

/// Puts the events of all shapes and members that are there. Where none can come, the places aren't listed.
pub(crate) fn put_place_events(
    alloc: Global,
    rows: &[BareShape],
    members: &[Vec<NamedTarget<'_>>],
    traits: &[PlaceRow],
    applied: &[ShapeId],
    events: &mut Vec<ModelEvent>,
) -> Result<(), NoMemory>
    requires members { length members.now ≡ length rows.now }
    requires named { AreNamedIds rows.now members.now }
    requires places { Rise (places_in traits.now) }
    ensures { OnOk result (TellsMore events.old.items events.new.items
        (events_at traits.now applied.now (places_below rows.now members.now (length rows.now)))) }
{
    if is_nothing_told(traits, applied) {
        return Ok(());
    }
    let places = all_places(alloc, rows, members)?;
    let there = places.as_slice();
    put_place_conflicts(alloc, there, traits, events)?;
    put_applied_events(alloc, applied, there, events)?;
    Ok(())
}

// Whether nothing is told, whatever is there.
fn is_nothing_told(traits: &[PlaceRow], applied: &[ShapeId]) -> bool
    ensures { IsTrue result → (places : List (List ℕ)) → events_at traits.now applied.now places ≡ [] }
{
    if !applied.is_empty() {
        return false;
    }
    !is_some_conflict(traits)
}

// Whether some values are in conflict.
fn is_some_conflict(traits: &[PlaceRow]) -> bool
    ensures { result ≡ some_conflict traits.now }
{
    traits
        .iter()
        .any(|row| are_in_conflict(row.traits.as_slice()))
}

fn are_in_conflict(values: &[NamedValue]) -> bool
    ensures { result ≡ have_conflict values.now }
{
    values.iter().any(|value| value.folded.conflict)
}

// The ids of all shapes and of all members, those of mixins among them.
fn all_places(
    alloc: Global,
    rows: &[BareShape],
    members: &[Vec<NamedTarget<'_>>],
) -> Result<Vec<ShapeId>, NoMemory>
    requires members { length members.now ≡ length rows.now }
    requires named { AreNamedIds rows.now members.now }
    ensures { IfOk result (λ places. places.items ≡ places_below rows.now members.now (length rows.now)) }
{
    let mut places = Vec::new(alloc);
    for number in 0..rows.len() {
        let list = members[number].as_slice();
        put_places(alloc, &rows[number].id, list, &mut places)?;
    }
    Ok(places)
}

// Puts the ids of a shape and its members.
fn put_places(
    alloc: Global,
    shape: &ShapeId,
    members: &[NamedTarget<'_>],
    places: &mut Vec<ShapeId>,
) -> Result<(), NoMemory>
    requires shape { IsShapeId shape.now }
    requires names { AreNames (targets_view members.now) }
    ensures { OnOk result (places.new.items
        ≡ places.old.items ++ shape.now ∷ map (λ p. member_id shape.now p.0) (targets_view members.now)) }
{
    places.push(copied_id(alloc, shape)?)?;
    for member in members {
        places.push(id_of_member(alloc, shape, member.name)?)?;
    }
    Ok(())
}

/// The id of a member of a shape.
pub(crate) fn id_of_member(alloc: Global, shape: &ShapeId, name: &str) -> Result<ShapeId, NoMemory>
    requires shape { IsShapeId shape.now }
    requires name { IsIdentifier name.now }
    ensures { IfOk result (λ id. id ≡ member_id shape.now name.now) }
{
    match shape.with_member(alloc, name) {
        Ok(id) => Ok(id),
        Err(_) => Err(NoMemory),
    }
}

// Puts an event for each trait of each place whose values are in conflict.
fn put_place_conflicts(
    alloc: Global,
    places: &[ShapeId],
    traits: &[PlaceRow],
    events: &mut Vec<ModelEvent>,
) -> Result<(), NoMemory>
    requires { Rise (places_in traits.now) }
    ensures { OnOk result (TellsMore events.old.items events.new.items (place_conflicts traits.now places.now)) }
{
    for place in places {
        let values = traits_at(traits, place.as_str());
        put_trait_events(alloc, place, values, events)?;
    }
    Ok(())
}

// Puts an event for what traits are applied to and is none of these places.
fn put_applied_events(
    alloc: Global,
    applied: &[ShapeId],
    places: &[ShapeId],
    events: &mut Vec<ModelEvent>,
) -> Result<(), NoMemory>
    ensures { OnOk result (TellsMore events.old.items events.new.items
        (applied_events (λ id. list_any (λ place. bytes_eq place id) places.now) applied.now)) }
{
    let there = place_set(alloc, places)?;
    for id in applied {
        put_unless_there(alloc, &there, id, events)?;
    }
    Ok(())
}

fn put_unless_there(
    alloc: Global,
    there: &BTreeSet<&str>,
    id: &ShapeId,
    events: &mut Vec<ModelEvent>,
) -> Result<(), NoMemory>
    ensures { OnOk result (TellsMore events.old.items events.new.items (applied_events (has_text there.now) (id.now ∷ []))) }
{
    if there.contains(id.as_str()) {
        return Ok(());
    }
    put_applied_event(alloc, id, events)
}

// The texts of ids.
fn place_set<'a>(alloc: Global, places: &'a [ShapeId]) -> Result<BTreeSet<&'a str>, NoMemory>
    ensures { IfOk result (λ set. (id : List ℕ) → has_text set id ≡ list_any (λ place. bytes_eq place id) places.now) }
{
    let mut set: BTreeSet<&'a str> = BTreeSet::new(alloc);
    for place in places {
        put_place(&mut set, place.as_str())?;
    }
    Ok(set)
}

fn put_place<'a>(set: &mut BTreeSet<&'a str>, place: &'a str) -> Result<(), NoMemory>
    ensures { OnOk result ((id : List ℕ) → has_text set.new id ≡ (has_text set.old id || bytes_eq place.now id)) }
{
    match set.insert(place) {
        Ok(_) => Ok(()),
        Err(_) => Err(NoMemory),
    }
}
