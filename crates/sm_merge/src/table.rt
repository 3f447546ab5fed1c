// What all that is given comes to: a row for each trait of each place, and for each key of metadata.
ghost use Rattle.std.specs.Prelude.{◌≡◌, ◌∷◌, IfOk};
ghost use Rattle.sm_model.specs.Given.{AreNodes as ArePairsOfNodes};
ghost use Rattle.sm_tree.specs.Same.{IsNode};
ghost use Rattle.sm_tree.specs.View.{members_view, node_of, nodes_view, pairs_view};
ghost use Rattle.sm_merge.specs.steps.Folding.{AreNodes, IsFolded};
ghost use Rattle.sm_merge.specs.steps.Placed.{placed_view};
ghost use Rattle.sm_merge.specs.steps.Tables.{all_given, AreListsOfNodes, ArePlacedNodes, ArePlacesOf, AreValuesOf, ComeToTraits};
ghost use Rattle.sm_merge.specs.steps.Tables.{pairs_views};

use crate::value::{Folded, fold_values};
use sm_groups::{Group, by_key};
use sm_tree::{NoMemory, Pairs, Text, Tree};
use std::alloc::Global;

/// What the values under a name came to.
#[derive(Drop)]
pub(crate) struct NamedValue {
    /// The id of the trait, or the key of the metadata.
    pub name: Text,
    /// The value.
    pub folded: Folded,
}

/// What is given at a shape or a member.
#[derive(Drop)]
pub(crate) struct PlaceRow {
    /// The id of the shape or member.
    pub place: Text,
    /// Its traits, in the order of their ids.
    pub traits: Vec<NamedValue>,
}

/// What values come to, name by name.
pub(crate) fn named_values(
    alloc: Global,
    pairs: Vec<(Text, Tree)>,
) -> Result<Vec<NamedValue>, NoMemory>
    requires { ArePairsOfNodes (members_view pairs.items) }
    ensures { IfOk result (λ values. AreValuesOf (members_view pairs.items) values.items) }
{
    let groups = by_key(alloc, pairs)?;
    let mut values = Vec::with_capacity(alloc, groups.len())?;
    for group in groups {
        values.push(value(alloc, group)?)?;
    }
    Ok(values)
}

fn value(alloc: Global, group: Group<Tree>) -> Result<NamedValue, NoMemory>
    requires first { IsNode (node_of group.first) }
    requires more { AreNodes (nodes_view group.more.items) }
    ensures name { IfOk result (λ value. value.name ≡ group.key) }
    ensures folded { IfOk result (λ value. IsFolded (node_of group.first ∷ nodes_view group.more.items) value.folded) }
{
    let Group { key, first, more } = group;
    let folded = fold_values(alloc, first, more)?;
    Ok(NamedValue { name: key, folded })
}

/// What traits come to, place by place.
pub(crate) fn place_rows(
    alloc: Global,
    lists: Vec<(Text, Pairs)>,
) -> Result<Vec<PlaceRow>, NoMemory>
    requires { ArePlacedNodes (placed_view lists.items) }
    ensures { IfOk result (λ rows. ArePlacesOf (placed_view lists.items) rows.items) }
{
    let groups = by_key(alloc, lists)?;
    let mut rows = Vec::with_capacity(alloc, groups.len())?;
    for group in groups {
        rows.push(place(alloc, group)?)?;
    }
    Ok(rows)
}

fn place(alloc: Global, group: Group<Pairs>) -> Result<PlaceRow, NoMemory>
    requires { AreListsOfNodes (pairs_view group.first ∷ pairs_views group.more.items) }
    ensures place { IfOk result (λ row. row.place ≡ group.key) }
    ensures traits { IfOk result (λ row. ComeToTraits (pairs_view group.first ∷ pairs_views group.more.items) row.traits.items) }
{
    let Group { key, first, more } = group;
    let all = all_pairs(first, more)?;
    let traits = named_values(alloc, all)?;
    Ok(PlaceRow { place: key, traits })
}

// The pairs of several lists, one after the other.
fn all_pairs(first: Pairs, more: Vec<Pairs>) -> Result<Vec<(Text, Tree)>, NoMemory>
    ensures { IfOk result (λ all. members_view all.items ≡ all_given (pairs_view first ∷ pairs_views more.items)) }
{
    let mut all = first.into_inner();
    for pairs in more {
        let mut behind = pairs.into_inner();
        all.append(&mut behind)?;
    }
    Ok(all)
}
