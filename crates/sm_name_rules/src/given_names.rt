// The numbers whose names may be told at a service: twins in its closure, what it renames, and what has a name that it gives.
ghost use Rattle.std.specs.Prelude.{◌≡◌, ℕ, IfOk, IfSome, OnOk, Option, Some};
ghost use Rattle.std.specs.List.{Contains};
ghost use Rattle.std.specs.List.Sorted.{IsStrictlyIncreasing};
ghost use Rattle.sm_tree.specs.View.{node_of};
ghost use Rattle.sm_model.specs.GraphView.{IsShapeNumber};
ghost use Rattle.sm_model.specs.Reaching.{id_of_number};
ghost use Rattle.sm_compile.specs.TraitNodes.{text_of};
ghost use Rattle.sm_name_rules.specs.steps.Renaming.{HasAlike, HasRenamed, IsMore, IsOneGiven};
ghost use Rattle.sm_name_rules.specs.steps.NameTwins.{AreNamesInside};

use crate::name_twins::NamesInside;
use sm_compile::text_in_trait;
use sm_model::Graph;
use sm_passes::folded::folded;
use sm_passes::numbers::rising;
use sm_tree::{NoMemory, Text, Tree};
use std::alloc::Global;

/// The numbers whose names may be told at a service, rising, where these pairs are in `rename`. n log n in the twins and the pairs,
/// beside the look-up of each id.
pub(crate) fn numbers_alike(
    alloc: Global,
    graph: &Graph,
    names: &NamesInside,
    pairs: &[(Text, Tree)],
) -> Result<Vec<u32>, NoMemory>
    requires names { AreNamesInside graph.now names.now }
    ensures rise { IfOk result (λ ns. IsStrictlyIncreasing ns.items) }
    ensures alike { IfOk result (λ ns. HasAlike graph.now names.now.inside.now pairs.now ns.items) }
{
    let mut numbers: Vec<u32> = Vec::new(alloc);
    numbers.extend_from_slice(names.twins())?;
    for pair in pairs {
        push_pair(alloc, graph, names, pair, &mut numbers)?;
    }
    Ok(rising(numbers))
}

// What a pair of `rename` names, and one whose name it gives.
fn push_pair(
    alloc: Global,
    graph: &Graph,
    names: &NamesInside,
    pair: &(Text, Tree),
    numbers: &mut Vec<u32>,
) -> Result<(), NoMemory>
    requires names { AreNamesInside graph.now names.now }
    ensures more { OnOk result (IsMore graph.now numbers.old.items numbers.new.items) }
    ensures pair { OnOk result (HasRenamed graph.now names.now.inside.now pair.now numbers.new.items) }
{
    push_id(graph, pair.0.as_str(), numbers)?;
    push_one(alloc, graph, names, &pair.1, numbers)?;
    Ok(())
}

// What has an id.
fn push_id(graph: &Graph, id: &str, numbers: &mut Vec<u32>) -> Result<(), NoMemory>
    ensures more { OnOk result (IsMore graph.now numbers.old.items numbers.new.items) }
    ensures named { OnOk result ((k : ℕ) → IsShapeNumber graph.now k → id_of_number graph.now k ≡ id.now → Contains numbers.new.items k) }
{
    match graph.number(id) {
        Some(number) => {
            numbers.push(number)?;
            Ok(())
        }
        None => Ok(()),
    }
}

// One inside whose name a tree of `rename` gives.
fn push_one(
    alloc: Global,
    graph: &Graph,
    names: &NamesInside,
    tree: &Tree,
    numbers: &mut Vec<u32>,
) -> Result<(), NoMemory>
    requires names { AreNamesInside graph.now names.now }
    ensures more { OnOk result (IsMore graph.now numbers.old.items numbers.new.items) }
    ensures one { OnOk result ((o : Option ℕ) × IsOneGiven graph.now names.now.inside.now (text_of (Some (node_of tree.now))) o
        × IfSome o (λ k. Contains numbers.new.items k)) }
{
    match one_given(alloc, graph, names, tree)? {
        Some(number) => {
            numbers.push(number)?;
            Ok(())
        }
        None => Ok(()),
    }
}

fn one_given(
    alloc: Global,
    graph: &Graph,
    names: &NamesInside,
    tree: &Tree,
) -> Result<Option<u32>, NoMemory>
    requires names { AreNamesInside graph.now names.now }
    ensures { IfOk result (λ o. IsOneGiven graph.now names.now.inside.now (text_of (Some (node_of tree.now))) o) }
{
    match text_in_trait(Some(tree)) {
        Some(name) => {
            let key = folded(alloc, name)?;
            Ok(names.one_named(key.as_str()))
        }
        None => Ok(None),
    }
}
