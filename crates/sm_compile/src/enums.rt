// The values of the members of enums.
ghost use Rattle.std.specs.Prelude.{◌≡◌, ◌^◌, IfOk, map, nat_lt};
ghost use Rattle.std.specs.List.{list_all};
ghost use Rattle.std.specs.Option.{option_copied};
ghost use Rattle.sm_model.specs.GraphView.{AreShapeNumbers, IsShapeNumber, maps_of};
ghost use Rattle.sm_model.specs.Reaching.{id_of_number};
ghost use Rattle.sm_compile.specs.Sound.{enum_numbers, enum_texts};
ghost use Rattle.sm_compile.specs.TraitNodes.{fits_word};
ghost use Rattle.sm_compile.specs.steps.Naming.{texts_of_all};
ghost use Rattle.sm_compile.specs.steps.Tests as tests;
ghost use Rattle.sm_compile.specs.steps.Tests.{enum_number, enum_text, has_its_values, is_some_number, is_some_text};

use crate::differ::{numbers_differ, texts_differ};
use crate::look::trait_node;
use crate::trait_ids::ENUM_VALUE;
use crate::traits::{number_of, text_in_trait};
use sm_model::{Graph, Kind};
use sm_tree::NoMemory;
use std::alloc::Global;

// The text that names the value of a member of an enum.
fn enum_text(graph: &Graph, member: u32) -> Option<&str>
    requires { IsShapeNumber graph.now member }
    ensures { option_copied result ≡ enum_text (maps_of graph.now) (id_of_number graph.now member) }
{
    text_in_trait(trait_node(graph, member, ENUM_VALUE))
}

// The number that is the value of a member of an intEnum.
fn enum_number(graph: &Graph, member: u32) -> Option<i64>
    requires { IsShapeNumber graph.now member }
    ensures { result ≡ enum_number (maps_of graph.now) (id_of_number graph.now member) }
{
    number_of(trait_node(graph, member, ENUM_VALUE))
}

/// The texts that are the values of these members of an enum, in order.
pub(crate) fn enum_texts<'a>(
    alloc: Global,
    graph: &'a Graph,
    members: &[u32],
) -> Result<Vec<&'a str>, NoMemory>
    requires { AreShapeNumbers graph.now members.now }
    ensures { IfOk result (λ texts. texts_of_all texts.items ≡ enum_texts (maps_of graph.now) (map (id_of_number graph.now) members.now)) }
{
    let mut texts = Vec::with_capacity(alloc, members.len())?;
    for member in members {
        match enum_text(graph, *member) {
            Some(text) => match texts.push(text) {
                Ok(()) => {}
                Err(_) => return Err(NoMemory),
            },
            None => {}
        }
    }
    Ok(texts)
}

/// The numbers that are the values of these members of an intEnum, in order.
pub(crate) fn enum_numbers(
    alloc: Global,
    graph: &Graph,
    members: &[u32],
) -> Result<Vec<i64>, NoMemory>
    requires { AreShapeNumbers graph.now members.now }
    ensures { IfOk result (λ numbers. numbers.items ≡ enum_numbers (maps_of graph.now) (map (id_of_number graph.now) members.now)) }
{
    let mut numbers = Vec::with_capacity(alloc, members.len())?;
    for member in members {
        match enum_number(graph, *member) {
            Some(number) => numbers.push(number)?,
            None => {}
        }
    }
    Ok(numbers)
}

/// Whether the members of a shape of this type have the values that they must have. n log n.
pub(crate) fn has_its_values(
    alloc: Global,
    graph: &Graph,
    kind: Kind,
    members: &[u32],
) -> Result<bool, NoMemory>
    requires { AreShapeNumbers graph.now members.now }
    ensures { IfOk result (λ b. b ≡ has_its_values (maps_of graph.now) kind (map (id_of_number graph.now) members.now)) }
{
    match kind {
        Kind::Enum => has_enum_texts(alloc, graph, members),
        Kind::IntEnum => has_enum_numbers(alloc, graph, members),
        _ => Ok(true),
    }
}

fn has_enum_texts(alloc: Global, graph: &Graph, members: &[u32]) -> Result<bool, NoMemory>
    requires { AreShapeNumbers graph.now members.now }
    ensures { IfOk result (λ b. b ≡ tests.has_enum_texts (maps_of graph.now) (map (id_of_number graph.now) members.now)) }
{
    if members.is_empty() || !have_texts(graph, members) {
        return Ok(false);
    }
    Ok(texts_differ(enum_texts(alloc, graph, members)?))
}

fn has_enum_numbers(alloc: Global, graph: &Graph, members: &[u32]) -> Result<bool, NoMemory>
    requires { AreShapeNumbers graph.now members.now }
    ensures { IfOk result (λ b. b ≡ tests.has_enum_numbers (maps_of graph.now) (map (id_of_number graph.now) members.now)) }
{
    if members.is_empty() || !have_numbers(graph, members) {
        return Ok(false);
    }
    Ok(numbers_differ(enum_numbers(alloc, graph, members)?))
}

// Whether each member has a text that isn't empty.
fn have_texts(graph: &Graph, members: &[u32]) -> bool
    requires { AreShapeNumbers graph.now members.now }
    ensures { result ≡ list_all (λ id. is_some_text (enum_text (maps_of graph.now) id)) (map (id_of_number graph.now) members.now) }
{
    for member in members {
        if !is_some_text(enum_text(graph, *member)) {
            return false;
        }
    }
    true
}

fn is_some_text(text: Option<&str>) -> bool
    ensures { result ≡ is_some_text (option_copied text.entry) }
{
    match text {
        Some(text) => !text.is_empty(),
        None => false,
    }
}

// Whether each member has a number of 32 bits.
fn have_numbers(graph: &Graph, members: &[u32]) -> bool
    requires { AreShapeNumbers graph.now members.now }
    ensures { result ≡ list_all (λ id. is_some_number (enum_number (maps_of graph.now) id)) (map (id_of_number graph.now) members.now) }
{
    for member in members {
        if !is_some_number(enum_number(graph, *member)) {
            return false;
        }
    }
    true
}

fn is_some_number(number: Option<i64>) -> bool
    ensures { result ≡ is_some_number number }
{
    match number {
        Some(number) => fits_word(number),
        None => false,
    }
}

/// Whether 32 bits hold the number, one of them its sign: what the value of a member of an intEnum may be. No memory.
pub fn fits_word(number: i64) -> bool
    ensures { result ≡ fits_word number }
{
    if number < 0 {
        has_places((-(number + 1)) as u64)
    } else {
        has_places(number as u64)
    }
}

fn has_places(reach: u64) -> bool
    ensures { result ≡ nat_lt reach (2 ^ 31) }
{
    reach < 2147483648
}
