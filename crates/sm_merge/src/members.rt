// The members of shapes with those of their mixins: each name once, where it stands first, with the target that stands there.
ghost use Rattle.std.specs.Prelude.{◌≡◌, ◌<◌, ◌++◌, ◌↔◌, ℕ, length, IfOk, IsTrue, OnOk};
ghost use Rattle.sm_merge.specs.steps.Filling.{all_targets, HasMixedMembers};
ghost use Rattle.sm_merge.specs.steps.Firsts.{firsts, targets_view, unseen};
ghost use Rattle.sm_merge.specs.steps.Known.{has_text};
ghost use Rattle.sm_merge.specs.steps.Links.{At};
ghost use Rattle.sm_merge.specs.steps.Made.{HaveManyMembers};
ghost use Rattle.sm_merge.specs.steps.MixedIn.{AllBelow, AreBelow};
ghost use Rattle.sm_merge.specs.steps.Stopping.{ListsMembers};
ghost use Rattle.sm_merge.specs.Limits.{most_members};

use crate::firsts::{NamedTarget, put_first, put_firsts};
use crate::limit::MEMBER_LIMIT;
use crate::mixins::Contributing;
use crate::mixins_once::first_mixins;
use crate::parts::BareShape;
use sm_ids::ShapeId;
use sm_tree::{NoMemory, Text};
use std::alloc::Global;
use std::collections::BTreeSet;

/// The members of each shape, by the shapes' numbers, along an order; none as soon as a shape has more than one may have.
pub(crate) fn all_members<'a>(
    alloc: Global,
    rows: &'a [BareShape],
    mixed: &[Vec<Contributing<'_>>],
    order: &[usize],
) -> Result<Option<Vec<Vec<NamedTarget<'a>>>>, NoMemory>
    requires size { length mixed.now ≡ length rows.now }
    requires below { AllBelow (length rows.now) mixed.now }
    requires within { (k v : ℕ) → At order.now k v → v < length rows.now }
    ensures { IfOk result (ListsMembers rows.now mixed.now order.now) }
{
    let mut all = no_members(alloc, rows.len())?;
    for number in order {
        let members = members_at(alloc, rows, mixed, *number, all.as_slice())?;
        let long = is_long(members.as_slice());
        all[*number] = members;
        if long {
            return Ok(None);
        }
    }
    Ok(Some(all))
}

// More members than one shape may have.
fn is_long(members: &[NamedTarget<'_>]) -> bool
    ensures { IsTrue result ↔ (most_members < length members.now) }
{
    members.len() as u64 > MEMBER_LIMIT
}

// No members, for each shape.
fn no_members<'a>(alloc: Global, count: usize) -> Result<Vec<Vec<NamedTarget<'a>>>, NoMemory>
    ensures size { IfOk result (λ all. length all.items ≡ count) }
    ensures short { IfOk result (λ all. HaveManyMembers all.items → ⊥) }
{
    let mut all = Vec::with_capacity(alloc, count)?;
    for _ in 0..count {
        let none = Vec::new(alloc);
        all.push(none)?;
    }
    Ok(all)
}

// The members of the shape of a number.
fn members_at<'a>(
    alloc: Global,
    rows: &'a [BareShape],
    mixed: &[Vec<Contributing<'_>>],
    number: usize,
    all: &[Vec<NamedTarget<'a>>],
) -> Result<Vec<NamedTarget<'a>>, NoMemory>
    requires inside { number < length rows.now }
    requires size { length mixed.now ≡ length rows.now }
    requires many { length all.now ≡ length rows.now }
    requires below { AllBelow (length rows.now) mixed.now }
    ensures { IfOk result (HasMixedMembers rows.now mixed.now number all.now) }
{
    let mixins = first_mixins(alloc, mixed[number].as_slice())?;
    members_of(alloc, &rows[number], mixins.as_slice(), all)
}

// The members of one shape: those of its mixins one after the other, then its own.
fn members_of<'a>(
    alloc: Global,
    row: &'a BareShape,
    mixed: &[Contributing<'_>],
    all: &[Vec<NamedTarget<'a>>],
) -> Result<Vec<NamedTarget<'a>>, NoMemory>
    requires { AreBelow (length all.now) mixed.now }
    ensures { IfOk result (λ members. targets_view members.items ≡ firsts (all_targets all.now mixed.now row.now.members.items)) }
{
    let mut seen: BTreeSet<&'a str> = BTreeSet::new(alloc);
    let mut members = Vec::with_capacity(alloc, row.members.len())?;
    for mixin in mixed {
        put_firsts(&mut seen, &mut members, all[mixin.number].as_slice())?;
    }
    put_own(&mut seen, &mut members, row.members.as_slice())?;
    Ok(members)
}

// Puts a shape's own members, but none of a name that was seen.
fn put_own<'a>(
    seen: &mut BTreeSet<&'a str>,
    members: &mut Vec<NamedTarget<'a>>,
    own: &'a [(Text, ShapeId)],
) -> Result<(), NoMemory>
    ensures { OnOk result (targets_view members.new.items ≡ targets_view members.old.items ++ unseen (has_text seen.old) (firsts own.now)) }
{
    for (name, target) in own {
        put_first(seen, members, name.as_str(), target)?;
    }
    Ok(())
}
