// Where one step leads to from each number of a graph.
ghost use Rattle.std.specs.Prelude.{◌≡◌, ◌<◌, ◌+◌, ◌^◌, ◌∷◌, [], ℕ, IfOk, MatchBool, get_or, length, replicate, set};
ghost use Rattle.sm_model.specs.declared.relation.Relation.TheVariants.{Container as container};
ghost use Rattle.sm_select.specs.Followed.{end_of, start_of};
ghost use Rattle.sm_select.specs.Neighbors.{AreBelow, AreNeighbors, IsBelow};
ghost use Rattle.sm_select.specs.steps.Runs.{Fills, RiseFrom, runs_from, steps_at, sums, takes};

use crate::follow::{end_of, start_of};
use sm_model::{Link, Relation};
use sm_tree::NoMemory;
use std::alloc::Global;
use std::marker::Model;

/// For each number of a graph the numbers to which one step leads, by any relation but that from a member to its shape; or from
/// which one leads. Contracts see the lists.
#[derive(Debug, Drop)]
pub struct Neighbors {
    // The numbers to which steps lead, those from one number behind those from the number before.
    numbers: Vec<u32>,
    // Where those of each number end.
    ends: Vec<usize>,
}

impl Model for Neighbors {
    ghost use Rattle.std.specs.Prelude.{List, ℕ, length};
    ghost use Rattle.sm_select.specs.steps.Runs.{RiseFrom, runs_from};

    ghost Value = { List (List ℕ) };

    ghost view = { λ a. runs_from a.numbers.items 0 a.ends.items };

    ghost invariant = { λ a. RiseFrom 0 a.ends.items (length a.numbers.items) };
}

impl Neighbors {
    /// The steps of the links of a graph of so many numbers; with `back` those against their direction. `NoMemory` where they
    /// find no room.
    pub fn new(alloc: Global, count: u32, links: &[Link], back: bool) -> Result<Self, NoMemory>
        requires { AreBelow count links.now }
        ensures { IfOk result (λ rows. AreNeighbors count links.now back rows) }
    {
        let mut ends = vec![in alloc; 0usize; count as usize]?;
        let places = ends.as_mut_slice();
        count_steps(places, links, back);
        let steps = to_starts(places);
        let mut numbers = vec![in alloc; 0u32; steps]?;
        put_steps(numbers.as_mut_slice(), places, links, back);
        Ok(Neighbors { numbers, ends })
    }

    /// The numbers to which a step leads from one number. No memory.
    pub fn row(&self, number: u32) -> &[u32]
        requires { number < length self.now }
        ensures { result.now ≡ get_or self.now number [] }
    {
        run(
            self.numbers.as_slice(),
            self.ends.as_slice(),
            number as usize,
        )
    }
}

// The numbers to which steps lead from one number.
fn run<'a>(numbers: &'a [u32], ends: &'a [usize], number: usize) -> &'a [u32]
    requires rise { RiseFrom 0 ends.now (length numbers.now) }
    requires below { number < length ends.now }
    ensures { result.now ≡ get_or (runs_from numbers.now 0 ends.now) number [] }
{
    let start = run_start(ends, number);
    let end = ends[number];
    &numbers[start..end]
}

// Where the steps from a number start: where those of the number before end.
fn run_start(ends: &[usize], number: usize) -> usize
    requires { number < length ends.now }
    ensures { result ≡ get_or (0 ∷ ends.now) number 0 }
{
    if number == 0 {
        return 0;
    }
    ends[number - 1]
}

// Whether a relation is followed where none is named.
fn is_followed(relation: Relation) -> bool
    ensures { MatchBool result (relation ≡ container → ⊥) (relation ≡ container) }
{
    match relation {
        Relation::Container => false,
        Relation::Member
        | Relation::Target
        | Relation::Input
        | Relation::Output
        | Relation::Error
        | Relation::Operation
        | Relation::Resource
        | Relation::Identifier
        | Relation::Property => true,
    }
}

// Counts the steps from each number.
fn count_steps(counts: &mut [usize], links: &[Link], back: bool)
    requires below { AreBelow (length counts.old) links.now }
    requires none { counts.old ≡ replicate (length counts.old) 0 }
    ensures whole { length counts.new ≡ length counts.old }
    ensures steps { (k : ℕ) → k < length counts.old → get_or counts.new k 0 ≡ steps_at back links.now k }
{
    for link in links {
        count_step(counts, *link, back);
    }
}

// Counts the step of a link, where it is one.
fn count_step(counts: &mut [usize], link: Link, back: bool)
    requires below { IsBelow (length counts.old) link }
    requires few { (k : ℕ) → k < length counts.old → get_or counts.old k 0 + 1 < 2 ^ 64 }
    ensures whole { length counts.new ≡ length counts.old }
    ensures steps { (k : ℕ) → k < length counts.old → get_or counts.new k 0 ≡ get_or counts.old k 0 + takes back link k }
{
    if !is_followed(link.relation) {
        return;
    }
    let from = start_of(link, back) as usize;
    counts[from] += 1;
}

// Where the steps from each number start, in place of how many there are. Answers how many steps there are.
fn to_starts(counts: &mut [usize]) -> usize
    requires few { sums (λ j. get_or counts.old j 0) (length counts.old) < 2 ^ 64 }
    ensures whole { length counts.new ≡ length counts.old }
    ensures starts { (k : ℕ) → k < length counts.old → get_or counts.new k 0 ≡ sums (λ j. get_or counts.old j 0) k }
    ensures steps { result ≡ sums (λ j. get_or counts.old j 0) (length counts.old) }
{
    let mut before = 0;
    for number in 0..counts.len() {
        let count = counts[number];
        counts[number] = before;
        before += count;
    }
    before
}

// Puts each step at the next free place of its number.
fn put_steps(numbers: &mut [u32], ends: &mut [usize], links: &[Link], back: bool)
    requires below { AreBelow (length ends.old) links.now }
    requires none { Fills (length ends.old) back links.now links.now numbers.old ends.old }
    ensures { Fills (length ends.old) back links.now [] numbers.new ends.new }
{
    for link in links {
        put_step(numbers, ends, *link, back);
    }
}

// Puts the step of a link, where it is one.
fn put_step(numbers: &mut [u32], ends: &mut [usize], link: Link, back: bool)
    requires below { IsBelow (length ends.old) link }
    requires room { (link.relation ≡ container → ⊥) → get_or ends.old (start_of back link) 0 < length numbers.old }
    ensures none { link.relation ≡ container → (numbers.new ≡ numbers.old) × (ends.new ≡ ends.old) }
    ensures put { (link.relation ≡ container → ⊥)
        → (numbers.new ≡ set numbers.old (get_or ends.old (start_of back link) 0) (end_of back link))
        × (ends.new ≡ set ends.old (start_of back link) (get_or ends.old (start_of back link) 0 + 1)) }
{
    if !is_followed(link.relation) {
        return;
    }
    let from = start_of(link, back) as usize;
    let place = ends[from];
    numbers[place] = end_of(link, back);
    ends[from] = place + 1;
}
