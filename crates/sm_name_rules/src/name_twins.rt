// Shapes whose names are equal but for case, in the whole graph and in a closure.
ghost use Rattle.std.specs.Prelude.{◌≡◌, ◌↔◌, ◌++◌, ℕ, IfOk, OnOk, Some, length};
ghost use Rattle.std.specs.List.{Contains};
ghost use Rattle.sm_model.specs.GraphView.{entries_of};
ghost use Rattle.sm_model.specs.Reaching.{IsMarked};
ghost use Rattle.sm_model.specs.declared.graph.Graph.{Graph};
ghost use Rattle.sm_passes.specs.Firsts.{number_in};
ghost use Rattle.sm_name_rules.specs.steps.NameTwins.{AreNames, AreNamesInside, Counts, IsOneNamed, earlier_in, number_under, one_of};
ghost use Rattle.sm_name_rules.specs.steps.NameTwins.{two_of};

use crate::earlier::earlier_at;
use sm_model::mark_at;
use sm_passes::closures::Closure;
use sm_passes::firsts::first_of;
use sm_tree::NoMemory;
use std::alloc::Global;
use std::collections::BTreeMap;

/// What a closure has of the names of a graph.
#[derive(Drop)]
pub(crate) struct NamesInside<'a, 'b> {
    /// The number that stands first under each name of the graph.
    firsts: &'a BTreeMap<&'b str, u32>,
    /// The closure, as marks.
    inside: &'a [bool],
    /// One number inside of each name whose first number isn't, under that first number.
    ones: BTreeMap<u32, u32>,
    /// The numbers inside whose names others inside have.
    twins: Vec<u32>,
}

impl NamesInside<'_, '_> {
    /// The closure, as marks.
    pub(crate) fn inside(&self) -> &[bool]
        ensures { result.now ≡ self.now.inside.now }
    {
        self.inside
    }

    /// The numbers inside whose names others inside have, in any order and any number of times.
    pub(crate) fn twins(&self) -> &[u32]
        ensures { result.now ≡ self.now.twins.items }
    {
        self.twins.as_slice()
    }

    /// A number inside of this name, which is in small letters. log n.
    pub(crate) fn one_named(&self, key: &str) -> Option<u32>
        ensures { (g : Graph) → AreNamesInside g self.now → IsOneNamed g self.now.inside.now key.now result }
    {
        match first_of(self.firsts, key) {
            Some(first) => one_of(self.inside, &self.ones, first),
            None => None,
        }
    }
}

// That of a closure, by the names of its graph. n log n in the numbers inside.
pub(crate) fn names_inside<'a, 'b>(
    alloc: Global,
    firsts: &'a BTreeMap<&'b str, u32>,
    earlier: &[Option<u32>],
    closure: &'a Closure,
) -> Result<NamesInside<'a, 'b>, NoMemory>
    requires { (k : ℕ) → Contains closure.now.found.items k ↔ IsMarked closure.now.marks.items k }
    ensures { IfOk result (λ names. (names.inside.now ≡ closure.now.marks.items)
        × ((g : Graph) → AreNames g (number_in firsts.now) (earlier_in earlier.now)
        → length closure.now.marks.items ≡ length (entries_of g) → AreNamesInside g names)) }
{
    let inside = closure.marks();
    let mut ones: BTreeMap<u32, u32> = BTreeMap::new(alloc);
    let mut twins: Vec<u32> = Vec::new(alloc);
    for number in closure.numbers() {
        count_number(inside, earlier, *number, &mut ones, &mut twins)?;
    }
    Ok(NamesInside {
        firsts,
        inside,
        ones,
        twins,
    })
}

// Of one number inside.
fn count_number(
    inside: &[bool],
    earlier: &[Option<u32>],
    number: u32,
    ones: &mut BTreeMap<u32, u32>,
    twins: &mut Vec<u32>,
) -> Result<(), NoMemory>
    ensures { OnOk result (Counts (earlier_in earlier.now number)
        (one_of inside.now (number_under ones.old) (earlier_in earlier.now number)) number
        (number_under ones.old) twins.old.items (number_under ones.new) twins.new.items) }
{
    match earlier_at(earlier, number) {
        Some(first) => count_later(inside, first, number, ones, twins),
        None => Ok(()),
    }
}

// Of one that stands later than this one under a name.
fn count_later(
    inside: &[bool],
    first: u32,
    number: u32,
    ones: &mut BTreeMap<u32, u32>,
    twins: &mut Vec<u32>,
) -> Result<(), NoMemory>
    ensures { OnOk result (Counts (Some first) (one_of inside.now (number_under ones.old) (Some first)) number (number_under ones.old)
        twins.old.items (number_under ones.new) twins.new.items) }
{
    match one_of(inside, ones, first) {
        Some(one) => {
            put_two(one, number, twins)?;
            Ok(())
        }
        None => {
            ones.insert(first, number)?;
            Ok(())
        }
    }
}

// Both, where they differ.
fn put_two(one: u32, other: u32, twins: &mut Vec<u32>) -> Result<(), NoMemory>
    ensures { OnOk result (twins.new.items ≡ twins.old.items ++ two_of one other) }
{
    if one == other {
        return Ok(());
    }
    twins.push(one)?;
    twins.push(other)?;
    Ok(())
}

// The marked number of a name, by the one that stands first under it.
fn one_of(inside: &[bool], ones: &BTreeMap<u32, u32>, first: u32) -> Option<u32>
    ensures { result ≡ one_of inside.now (number_under ones.now) (Some first) }
{
    if mark_at(inside, first) {
        return Some(first);
    }
    match ones.get(&first) {
        Some(one) => Some(*one),
        None => None,
    }
}
