// What shapes come to with their mixins. Values stay where they are.
ghost use Rattle.std.specs.Prelude.{◌≡◌, ◌<◌, ℕ, length, IfOk};
ghost use Rattle.sm_model.specs.steps.Rising.{Rise};
ghost use Rattle.sm_merge.specs.steps.Contributing.{NamesRise};
ghost use Rattle.sm_merge.specs.steps.Counting.{AllTold, AreSoundEntries, ListsTraits, TellsSize};
ghost use Rattle.sm_merge.specs.steps.EffectiveTables.{AreSoundTraits};
ghost use Rattle.sm_merge.specs.steps.Filling.{AreTraitsFrom, HasMixedTraits};
ghost use Rattle.sm_merge.specs.steps.Firsts.{targets_view};
ghost use Rattle.sm_merge.specs.steps.Links.{At};
ghost use Rattle.sm_merge.specs.steps.MixedIn.{AllBelow, AreBelow};
ghost use Rattle.sm_merge.specs.steps.Tables.{places_in};

use crate::effective_members::member_traits;
use crate::effective_traits::{copied_traits, own_traits};
use crate::firsts::NamedTarget;
use crate::limit::TRAIT_LIMIT;
use crate::limits::shape_size;
use crate::look::traits_at;
use crate::mixins::Contributing;
use crate::mixins_once::last_mixins;
use crate::parts::BareShape;
use crate::table::PlaceRow;
use crate::value::Folded;
use sm_tree::{NoMemory, Text};
use std::alloc::Global;

/// The value of a trait, where it stands.
#[derive(Clone, Copy, Drop)]
pub(crate) struct NamedFolded<'a> {
    /// The trait's id.
    pub name: &'a str,
    /// What its values came to.
    pub folded: &'a Folded,
}

/// The traits of a member.
#[derive(Drop)]
pub(crate) struct MemberTraits<'a> {
    /// Its name.
    pub member: Text,
    /// Its traits, in the order of their ids.
    pub traits: Vec<NamedFolded<'a>>,
}

/// The traits of a shape and of its members.
#[derive(Drop)]
pub(crate) struct ShapeTraits<'a> {
    /// Those of the shape, in the order of their ids.
    pub own: Vec<NamedFolded<'a>>,
    /// Those of them that shapes get which mix it in.
    pub copied: Vec<NamedFolded<'a>>,
    /// Those of its members, in the order of their names.
    pub members: Vec<MemberTraits<'a>>,
}

/// The traits of all shapes and of their members, by the shapes' numbers, along an order; none as soon as they count more than those of
/// a model may.
pub(crate) fn all_traits<'a>(
    alloc: Global,
    rows: &[BareShape],
    traits: &'a [PlaceRow],
    members: &[Vec<NamedTarget<'_>>],
    mixed: &[Vec<Contributing<'_>>],
    order: &[usize],
) -> Result<Option<Vec<ShapeTraits<'a>>>, NoMemory>
    requires places { Rise (places_in traits.now) }
    requires names { NamesRise traits.now }
    requires told { AllTold traits.now }
    requires members { length members.now ≡ length rows.now }
    requires size { length mixed.now ≡ length rows.now }
    requires below { AllBelow (length rows.now) mixed.now }
    requires within { (k v : ℕ) → At order.now k v → v < length rows.now }
    ensures { IfOk result (ListsTraits rows.now traits.now members.now mixed.now order.now) }
{
    let mut all = no_traits(alloc, rows.len())?;
    let mut total: u64 = 0;
    for number in order {
        let entry = entry_at(alloc, rows, traits, members, mixed, *number, all.as_slice())?;
        let size = size_at(rows, members, *number, &entry);
        total = total.saturating_add(size);
        all[*number] = entry;
        if total > TRAIT_LIMIT {
            return Ok(None);
        }
    }
    Ok(Some(all))
}

// The traits of the shape of a number and of its members.
fn entry_at<'a>(
    alloc: Global,
    rows: &[BareShape],
    traits: &'a [PlaceRow],
    members: &[Vec<NamedTarget<'_>>],
    mixed: &[Vec<Contributing<'_>>],
    number: usize,
    all: &[ShapeTraits<'a>],
) -> Result<ShapeTraits<'a>, NoMemory>
    requires places { Rise (places_in traits.now) }
    requires names { NamesRise traits.now }
    requires members { length members.now ≡ length rows.now }
    requires size { length mixed.now ≡ length rows.now }
    requires many { length all.now ≡ length rows.now }
    requires below { AllBelow (length rows.now) mixed.now }
    requires inside { number < length rows.now }
    ensures { IfOk result (HasMixedTraits traits.now rows.now members.now mixed.now number all.now) }
{
    let id = rows[number].id.as_str();
    let given = members[number].as_slice();
    let mixins = last_mixins(alloc, mixed[number].as_slice())?;
    traits_of(alloc, traits, id, given, mixins.as_slice(), all)
}

// How much the shape of a number counts with these traits.
fn size_at(
    rows: &[BareShape],
    members: &[Vec<NamedTarget<'_>>],
    number: usize,
    traits: &ShapeTraits<'_>,
) -> u64
    requires inside { number < length rows.now }
    requires members { length members.now ≡ length rows.now }
    requires sound { AreSoundTraits traits.now }
    ensures { TellsSize rows.now members.now number traits.now result }
{
    shape_size(&rows[number], members[number].as_slice(), traits)
}

// No traits, for each shape.
fn no_traits<'a>(alloc: Global, count: usize) -> Result<Vec<ShapeTraits<'a>>, NoMemory>
    ensures size { IfOk result (λ all. length all.items ≡ count) }
    ensures sound { IfOk result (λ all. AreSoundEntries all.items) }
{
    let mut all = Vec::with_capacity(alloc, count)?;
    for _ in 0..count {
        let none = ShapeTraits {
            own: Vec::new(alloc),
            copied: Vec::new(alloc),
            members: Vec::new(alloc),
        };
        all.push(none)?;
    }
    Ok(all)
}

// The traits of one shape and of its members.
fn traits_of<'a>(
    alloc: Global,
    rows: &'a [PlaceRow],
    id: &str,
    members: &[NamedTarget<'_>],
    mixed: &[Contributing<'_>],
    all: &[ShapeTraits<'a>],
) -> Result<ShapeTraits<'a>, NoMemory>
    requires places { Rise (places_in rows.now) }
    requires names { NamesRise rows.now }
    requires below { AreBelow (length all.now) mixed.now }
    ensures { IfOk result (AreTraitsFrom rows.now id.now (targets_view members.now) mixed.now all.now) }
{
    let given = traits_at(rows, id);
    let own = own_traits(alloc, given, mixed, all)?;
    let copied = copied_traits(alloc, given, own.as_slice())?;
    let members = member_traits(alloc, rows, id, members, mixed, all)?;
    Ok(ShapeTraits {
        own,
        copied,
        members,
    })
}
