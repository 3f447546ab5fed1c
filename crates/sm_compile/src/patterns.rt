// The patterns that shapes and members carry themselves, and all that marked ones carry, each once.
ghost use Rattle.std.specs.Prelude.{◌≡◌, ◌+◌, ℕ, List, IfOk, OnOk, MatchOption, Some, length};
ghost use Rattle.std.specs.List.{Contains};
ghost use Rattle.std.specs.Option.{option_copied, option_or};
ghost use Rattle.sm_model.specs.GraphView.{IsShapeNumber, entries_of, maps_of};
ghost use Rattle.sm_model.specs.Reaching.{id_of_number};
ghost use Rattle.sm_compile.specs.Compiled.{AreNumberedFrom, NamesText, texts_of};
ghost use Rattle.sm_compile.specs.steps.Carrying.{AreCarried, AreCarriedUpTo, ArePlaced, IsCarriedAt, IsPlaced, carried, texts_in};
ghost use Rattle.sm_compile.specs.steps.Looked.{kind_under, target_kind};

use crate::look::{kind_of, target_kind};
use crate::seen::SeenTraits;
use sm_model::{Graph, Kind};
use sm_tree::{NoMemory, Text};
use std::alloc::Global;
use std::collections::BTreeMap;

/// A pattern's text, with the first number of a graph that carries it.
#[derive(Clone, Copy, Drop)]
pub(crate) struct FirstCarrier<'a> {
    /// The number.
    pub number: u32,
    /// The text.
    pub text: &'a str,
}

/// Patterns, each once, in the order of their first carriers.
#[derive(Drop)]
pub(crate) struct CarriedTexts<'a> {
    /// The texts with their first carriers.
    pub firsts: Vec<FirstCarrier<'a>>,
    /// At which place each text stands.
    pub places: BTreeMap<&'a str, usize>,
}

/// The patterns that marked shapes and members carry themselves. n log n in the texts that are carried.
pub(crate) fn carried_texts<'a>(
    alloc: Global,
    graph: &'a Graph,
    marks: &[bool],
) -> Result<CarriedTexts<'a>, NoMemory>
    requires { length marks.now ≡ length (entries_of graph.now) }
    ensures { IfOk result (λ c. AreCarried graph.now marks.now c) }
{
    let mut carried = CarriedTexts {
        firsts: Vec::new(alloc),
        places: BTreeMap::new(alloc),
    };
    for number in 0..graph.count() {
        put_carried(graph, marks, number, &mut carried)?;
    }
    Ok(carried)
}

// Puts the pattern that a number carries, where it is marked.
fn put_carried<'a>(
    graph: &'a Graph,
    marks: &[bool],
    number: u32,
    carried: &mut CarriedTexts<'a>,
) -> Result<(), NoMemory>
    requires count { length marks.now ≡ length (entries_of graph.now) }
    requires number { IsShapeNumber graph.now number }
    requires before { AreCarriedUpTo graph.now marks.now number carried.old }
    ensures { OnOk result (AreCarriedUpTo graph.now marks.now (number + 1) carried.new) }
{
    match marked_pattern(graph, marks, number) {
        Some(text) => put_text(graph, marks, number, text, carried),
        None => Ok(()),
    }
}

// The pattern that a number carries, where it is marked.
fn marked_pattern<'a>(graph: &'a Graph, marks: &[bool], number: u32) -> Option<&'a str>
    requires count { length marks.now ≡ length (entries_of graph.now) }
    requires number { IsShapeNumber graph.now number }
    ensures { MatchOption result
        ((u : List ℕ) → IsCarriedAt graph.now marks.now u number → ⊥)
        (λ text. IsCarriedAt graph.now marks.now text.now number) }
{
    if marks[number as usize] {
        own_pattern(graph, number)
    } else {
        None
    }
}

// Puts a text that a number carries, unless it is there.
fn put_text<'a>(
    graph: &'a Graph,
    marks: &[bool],
    number: u32,
    text: &'a str,
    carried: &mut CarriedTexts<'a>,
) -> Result<(), NoMemory>
    requires number { IsShapeNumber graph.now number }
    requires carries { IsCarriedAt graph.now marks.now text.now number }
    requires before { AreCarriedUpTo graph.now marks.now number carried.old }
    ensures { OnOk result (AreCarriedUpTo graph.now marks.now (number + 1) carried.new) }
{
    match place_of(carried, text) {
        Some(_) => Ok(()),
        None => put_first(graph, marks, FirstCarrier { number, text }, carried),
    }
}

// Puts a text that isn't there.
fn put_first<'a>(
    graph: &'a Graph,
    marks: &[bool],
    first: FirstCarrier<'a>,
    carried: &mut CarriedTexts<'a>,
) -> Result<(), NoMemory>
    requires number { IsShapeNumber graph.now first.number }
    requires carries { IsCarriedAt graph.now marks.now first.text.now first.number }
    requires before { AreCarriedUpTo graph.now marks.now first.number carried.old }
    requires fresh { Contains (texts_in carried.old) first.text.now → ⊥ }
    ensures { OnOk result (AreCarriedUpTo graph.now marks.now (first.entry.number + 1) carried.new) }
{
    carried.places.insert(first.text, carried.firsts.len())?;
    carried.firsts.push(first)?;
    Ok(())
}

/// The place of a text. No memory.
pub(crate) fn place_of(carried: &CarriedTexts<'_>, text: &str) -> Option<usize>
    requires { ArePlaced carried.now }
    ensures { IsPlaced (texts_in carried.now) text.now result }
{
    match carried.places.get(text) {
        Some(place) => Some(*place),
        None => None,
    }
}

/// The number of a pattern in a store, by the rows of those that were added. No memory.
pub(crate) fn pattern_number(
    carried: &CarriedTexts<'_>,
    rows: &[(u32, Text)],
    text: Option<&str>,
) -> Option<u32>
    requires placed { ArePlaced carried.now }
    requires texts { texts_of rows.now ≡ texts_in carried.now }
    requires numbered { (k : ℕ) × AreNumberedFrom k rows.now }
    requires among { (u : List ℕ) → option_copied text ≡ Some u → Contains (texts_in carried.now) u }
    ensures { NamesText rows.now result (option_copied text.entry) }
{
    match text {
        Some(text) => number_of(carried, rows, text),
        None => None,
    }
}

fn number_of(carried: &CarriedTexts<'_>, rows: &[(u32, Text)], text: &str) -> Option<u32>
    requires placed { ArePlaced carried.now }
    requires texts { texts_of rows.now ≡ texts_in carried.now }
    requires numbered { (k : ℕ) × AreNumberedFrom k rows.now }
    requires among { Contains (texts_in carried.now) text.now }
    ensures { NamesText rows.now result (Some text.now) }
{
    match place_of(carried, text) {
        Some(place) => Some(rows[place].0),
        None => None,
    }
}

/// The pattern that a shape or member carries itself, where values there are texts. No memory.
pub(crate) fn own_pattern(graph: &Graph, number: u32) -> Option<&str>
    requires { IsShapeNumber graph.now number }
    ensures { option_copied result ≡ carried (maps_of graph.now) (id_of_number graph.now number) }
{
    match value_kind(graph, number) {
        Some(kind) => {
            let seen = SeenTraits {
                graph,
                own: number,
                target: None,
            };
            seen.pattern(kind)
        }
        None => None,
    }
}

// The type of the values that stand there: of a shape its own, of a member its target's.
fn value_kind(graph: &Graph, number: u32) -> Option<Kind>
    requires { IsShapeNumber graph.now number }
    ensures { result ≡ option_or (kind_under (maps_of graph.now) (id_of_number graph.now number))
        (target_kind (maps_of graph.now) (id_of_number graph.now number)) }
{
    match kind_of(graph, number) {
        Some(kind) => Some(kind),
        None => target_kind(graph, number),
    }
}
