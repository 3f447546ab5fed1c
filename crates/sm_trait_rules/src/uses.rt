// Uses of traits that have selectors, in lists by the selectors' texts.
ghost use Rattle.std.specs.Prelude.{◌≡◌, ◌<◌, ◌∷◌, ◌++◌, [], ℕ, List, IfOk, OnOk, None, Some, get_or, length, replicate};
ghost use Rattle.std.specs.List.{Contains};
ghost use Rattle.sm_tree.specs.declared.tree.Tree.{Tree as tree};
ghost use Rattle.sm_model.specs.GraphView.{IsShapeNumber, entries_of};
ghost use Rattle.sm_model.specs.Joins.{Joins};
ghost use Rattle.sm_trait_rules.specs.steps.Placing.{AreFirsts, AreUses, HasUse, IsUseAt, IsUseOfName};

use sm_compile::id_text;
use sm_model::{Graph, is_in_prelude};
use sm_tree::{NoMemory, Text, Tree};
use std::alloc::Global;
use std::marker::Model;

/// Uses of traits: each the number of what carries one, and that of the trait. Contracts see the list.
#[derive(Drop)]
pub(crate) struct TraitUses {
    uses: Vec<(u32, u32)>,
}

impl Model for TraitUses {
    ghost use Rattle.std.specs.Prelude.{List, ℕ};

    ghost Value = { List (ℕ × ℕ) };

    ghost view = { λ a. a.uses.items };
}

impl TraitUses {
    /// None. No memory.
    pub(crate) fn new(alloc: Global) -> Self
        ensures { result ≡ [] }
    {
        TraitUses {
            uses: Vec::new(alloc),
        }
    }

    /// Appends the use of a trait.
    pub(crate) fn push(&mut self, carrier: u32, of: u32) -> Result<(), NoMemory>
        ensures { OnOk result (self.new ≡ self.old ++ (carrier, of) ∷ []) }
    {
        self.uses.push((carrier, of))?;
        Ok(())
    }

    /// The uses, in order. No memory.
    pub(crate) fn as_slice(&self) -> &[(u32, u32)]
        ensures { result.now ≡ self.now }
    {
        self.uses.as_slice()
    }
}

/// The uses of traits by what stands outside of the prelude, each under the number that is given for its trait. n log n.
pub(crate) fn uses_of(
    alloc: Global,
    graph: &Graph,
    firsts: &[Option<u32>],
) -> Result<Vec<TraitUses>, NoMemory>
    requires { AreFirsts graph.now firsts.now }
    ensures { IfOk result (λ rows. AreUses graph.now firsts.now rows.items) }
{
    let mut rows = no_uses(alloc, graph.count())?;
    for number in 0..graph.count() {
        put_uses(graph, firsts, number, &mut rows)?;
    }
    Ok(rows)
}

// So many lists without uses.
fn no_uses(alloc: Global, count: u32) -> Result<Vec<TraitUses>, NoMemory>
    ensures { IfOk result (λ rows. rows.items ≡ replicate count []) }
{
    let mut rows = Vec::with_capacity(alloc, count as usize)?;
    for _ in 0..count {
        rows.push(TraitUses::new(alloc))?;
    }
    Ok(rows)
}

// Puts those by what stands at a number.
fn put_uses(
    graph: &Graph,
    firsts: &[Option<u32>],
    number: u32,
    rows: &mut Vec<TraitUses>,
) -> Result<(), NoMemory>
    requires number { IsShapeNumber graph.now number }
    requires firsts { AreFirsts graph.now firsts.now }
    requires rows { length rows.old.items ≡ length (entries_of graph.now) }
    ensures count { OnOk result (length rows.new.items ≡ length rows.old.items) }
    ensures uses { OnOk result (Joins (HasUse rows.old.items) (IsUseAt graph.now firsts.now number) (HasUse rows.new.items)) }
{
    if is_in_prelude(id_text(graph, number)) {
        Ok(())
    } else {
        put_carried(graph, firsts, number, graph.traits(number), rows)
    }
}

// Puts those of these traits.
fn put_carried(
    graph: &Graph,
    firsts: &[Option<u32>],
    number: u32,
    traits: &[(Text, Tree)],
    rows: &mut Vec<TraitUses>,
) -> Result<(), NoMemory>
    requires firsts { AreFirsts graph.now firsts.now }
    requires rows { length rows.old.items ≡ length (entries_of graph.now) }
    ensures count { OnOk result (length rows.new.items ≡ length rows.old.items) }
    ensures uses { OnOk result (Joins (HasUse rows.old.items)
        (λ p. (t : List ℕ × tree) × Contains traits.now t × IsUseOfName graph.now firsts.now number t.0 p) (HasUse rows.new.items)) }
{
    for pair in traits {
        put_named(graph, firsts, number, pair.0.as_str(), rows)?;
    }
    Ok(())
}

// Puts that of the trait of a name, where the graph has it and it has a selector.
fn put_named(
    graph: &Graph,
    firsts: &[Option<u32>],
    number: u32,
    name: &str,
    rows: &mut Vec<TraitUses>,
) -> Result<(), NoMemory>
    requires firsts { AreFirsts graph.now firsts.now }
    requires rows { length rows.old.items ≡ length (entries_of graph.now) }
    ensures count { OnOk result (length rows.new.items ≡ length rows.old.items) }
    ensures uses { OnOk result (Joins (HasUse rows.old.items) (IsUseOfName graph.now firsts.now number name.now)
        (HasUse rows.new.items)) }
{
    match graph.number(name) {
        Some(of) => put_under(given(firsts, of), number, of, rows),
        None => Ok(()),
    }
}

// The number that is given for a trait.
fn given(firsts: &[Option<u32>], of: u32) -> Option<u32>
    requires { of < length firsts.now }
    ensures { result ≡ get_or firsts.now of None }
{
    firsts[of as usize]
}

// Puts a use under a number, if there is one.
fn put_under(
    first: Option<u32>,
    carrier: u32,
    of: u32,
    rows: &mut Vec<TraitUses>,
) -> Result<(), NoMemory>
    requires { (k : ℕ) → first ≡ Some k → k < length rows.old.items }
    ensures count { OnOk result (length rows.new.items ≡ length rows.old.items) }
    ensures uses { OnOk result (Joins (HasUse rows.old.items)
        (λ p. (first ≡ Some p.0) × (p.1 ≡ (carrier, of))) (HasUse rows.new.items)) }
{
    match first {
        Some(first) => push_at(rows, first, carrier, of),
        None => Ok(()),
    }
}

fn push_at(rows: &mut Vec<TraitUses>, first: u32, carrier: u32, of: u32) -> Result<(), NoMemory>
    requires { first < length rows.old.items }
    ensures count { OnOk result (length rows.new.items ≡ length rows.old.items) }
    ensures uses { OnOk result (Joins (HasUse rows.old.items) (λ p. p ≡ (first, (carrier, of))) (HasUse rows.new.items)) }
{
    rows[first as usize].push(carrier, of)
}
