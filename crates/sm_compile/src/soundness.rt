// Of which shapes a table can be made.
ghost use Rattle.std.specs.Prelude.{◌≡◌, ◌↔◌, IfOk, IsTrue, Some, length, map, true};
ghost use Rattle.std.specs.List.{list_all};
ghost use Rattle.sm_model.specs.Formed.{HaveForm};
ghost use Rattle.sm_model.specs.GraphView.{AreShapeNumbers, IsShapeNumber, entries_of, maps_of};
ghost use Rattle.sm_model.specs.Kinds.{member_form};
ghost use Rattle.sm_model.specs.Reaching.{IsMarked, id_of_number};
ghost use Rattle.sm_model.specs.declared.kind.Kind.TheVariants.{Map as map_kind};
ghost use Rattle.sm_shapes.specs.Names.{AllDiffer};
ghost use Rattle.sm_compile.specs.Sound.{IsSoundAt, IsValueShape, TellsSound, trait_of};
ghost use Rattle.sm_compile.specs.steps.Looked.{kind_under, listed_under, targets_unit};
ghost use Rattle.sm_compile.specs.steps.Naming.{texts_of_all};
ghost use Rattle.sm_compile.specs.steps.Soundness.{AreSoundBelow};
ghost use Rattle.sm_compile.specs.steps.Tests as tests;

use crate::differ::texts_differ;
use crate::enums::has_its_values;
use crate::formed::{are_formed, is_enum_value_where};
use crate::kinds::{has_values, is_text_kind, may_target};
use crate::look::{kind_of, members_of, target_kind, targets_unit, trait_node};
use crate::names::{Names, have_form, names_of};
use crate::reach::reached;
use crate::trait_ids::ENUM_VALUE;
use sm_model::{Graph, Kind};
use sm_tree::NoMemory;
use std::alloc::Global;

/// Whether a table can be made of a shape: all that it reaches is in order. It is so of what has no values. n log n in what is reached.
/// `NoMemory` where what is reached, or the names of one shape, find no room.
pub fn sound(alloc: Global, graph: &Graph, shape: u32) -> Result<bool, NoMemory>
    requires { IsShapeNumber graph.now shape }
    ensures { IfOk result (λ b. TellsSound (maps_of graph.now) (id_of_number graph.now shape) b) }
{
    if is_value_shape(graph, shape) {
        is_all_sound(alloc, graph, shape)
    } else {
        Ok(true)
    }
}

// Whether a table can be made of a shape that has values.
fn is_all_sound(alloc: Global, graph: &Graph, shape: u32) -> Result<bool, NoMemory>
    requires number { IsShapeNumber graph.now shape }
    requires value { IsValueShape (maps_of graph.now) (id_of_number graph.now shape) }
    ensures { IfOk result (λ b. TellsSound (maps_of graph.now) (id_of_number graph.now shape) b) }
{
    let marks = reached(alloc, graph, &[shape])?;
    all_sound(alloc, graph, marks.as_slice())
}

/// Whether this is the number of a shape that has values.
pub(crate) fn is_value_shape(graph: &Graph, number: u32) -> bool
    requires { IsShapeNumber graph.now number }
    ensures { IsTrue result ↔ IsValueShape (maps_of graph.now) (id_of_number graph.now number) }
{
    match kind_of(graph, number) {
        Some(kind) => has_values(kind),
        None => false,
    }
}

// Whether each marked shape is in order.
fn all_sound(alloc: Global, graph: &Graph, marks: &[bool]) -> Result<bool, NoMemory>
    requires { length marks.now ≡ length (entries_of graph.now) }
    ensures { IfOk result (λ b. IsTrue b ↔ AreSoundBelow graph.now marks.now (length marks.now)) }
{
    for number in 0..graph.count() {
        if !is_sound_where(alloc, graph, marks, number)? {
            return Ok(false);
        }
    }
    Ok(true)
}

// Whether a shape is in order, where it is marked.
fn is_sound_where(
    alloc: Global,
    graph: &Graph,
    marks: &[bool],
    number: u32,
) -> Result<bool, NoMemory>
    requires count { length marks.now ≡ length (entries_of graph.now) }
    requires number { IsShapeNumber graph.now number }
    ensures { IfOk result (λ b. IsTrue b ↔ (IsMarked marks.now number → IsSoundAt graph.now number)) }
{
    if marks[number as usize] {
        is_sound_shape(alloc, graph, number)
    } else {
        Ok(true)
    }
}

/// Whether a shape with its members is in order. It is so of a member. `NoMemory` where
/// memory is refused.
pub fn is_sound_shape(alloc: Global, graph: &Graph, shape: u32) -> Result<bool, NoMemory>
    requires { IsShapeNumber graph.now shape }
    ensures { IfOk result (λ b. IsTrue b ↔ IsSoundAt graph.now shape) }
{
    match kind_of(graph, shape) {
        Some(kind) => is_sound_of_kind(alloc, graph, shape, kind),
        None => Ok(true),
    }
}

// Whether a shape of this type with its members is in order.
fn is_sound_of_kind(alloc: Global, graph: &Graph, shape: u32, kind: Kind) -> Result<bool, NoMemory>
    requires number { IsShapeNumber graph.now shape }
    requires kind { kind_under (maps_of graph.now) (id_of_number graph.now shape) ≡ Some kind }
    ensures { IfOk result (λ b. IsTrue b ↔ IsSoundAt graph.now shape) }
{
    if has_parts(alloc, graph, shape, kind)? {
        has_sound_names(alloc, graph, shape, kind)
    } else {
        Ok(false)
    }
}

// Whether a shape is in order where only the names of its members are left to see.
fn has_sound_names(alloc: Global, graph: &Graph, shape: u32, kind: Kind) -> Result<bool, NoMemory>
    requires number { IsShapeNumber graph.now shape }
    requires kind { kind_under (maps_of graph.now) (id_of_number graph.now shape) ≡ Some kind }
    requires parts { tests.has_parts (maps_of graph.now) (id_of_number graph.now shape) kind
        (listed_under (maps_of graph.now) (id_of_number graph.now shape)) ≡ true }
    ensures { IfOk result (λ b. IsTrue b ↔ IsSoundAt graph.now shape) }
{
    match names_of(alloc, graph, shape, members_of(graph, shape))? {
        Some(names) => Ok(are_sound_names(kind, names)),
        None => Ok(false),
    }
}

// Whether the members of a shape of this type may have these names, and no two have one in JSON.
fn are_sound_names(kind: Kind, names: Names<'_>) -> bool
    ensures { IsTrue result ↔ (HaveForm (member_form kind) (texts_of_all names.entry.names.items)
        × AllDiffer (texts_of_all names.entry.json_names.items)) }
{
    let Names { names, json_names } = names;
    if texts_differ(json_names) {
        have_form(kind, names)
    } else {
        false
    }
}

// Whether a shape has what it must have beside the names of its members.
fn has_parts(alloc: Global, graph: &Graph, shape: u32, kind: Kind) -> Result<bool, NoMemory>
    requires { IsShapeNumber graph.now shape }
    ensures { IfOk result (λ b. b ≡ tests.has_parts (maps_of graph.now) (id_of_number graph.now shape) kind
        (listed_under (maps_of graph.now) (id_of_number graph.now shape))) }
{
    let members = members_of(graph, shape);
    if has_plain_parts(graph, shape, kind, members) {
        has_its_values(alloc, graph, kind, members)
    } else {
        Ok(false)
    }
}

fn has_plain_parts(graph: &Graph, shape: u32, kind: Kind, members: &[u32]) -> bool
    requires number { IsShapeNumber graph.now shape }
    requires numbers { AreShapeNumbers graph.now members.now }
    ensures { result ≡ tests.has_plain_parts (maps_of graph.now) (id_of_number graph.now shape) kind
        (map (id_of_number graph.now) members.now) }
{
    are_formed(graph, shape, kind)
        && are_sound_members(graph, kind, members)
        && has_text_key(graph, kind, members)
}

// Whether each member of a shape of this type is in order.
fn are_sound_members(graph: &Graph, kind: Kind, members: &[u32]) -> bool
    requires { AreShapeNumbers graph.now members.now }
    ensures { result ≡ list_all (tests.is_sound_member (maps_of graph.now) kind) (map (id_of_number graph.now) members.now) }
{
    for member in members {
        if !is_sound_member(graph, kind, *member) {
            return false;
        }
    }
    true
}

fn is_sound_member(graph: &Graph, kind: Kind, member: u32) -> bool
    requires { IsShapeNumber graph.now member }
    ensures { result ≡ tests.is_sound_member (maps_of graph.now) kind (id_of_number graph.now member) }
{
    match target_kind(graph, member) {
        Some(target) => is_sound_at_target(graph, kind, member, target),
        None => false,
    }
}

fn is_sound_at_target(graph: &Graph, kind: Kind, member: u32, target: Kind) -> bool
    requires { IsShapeNumber graph.now member }
    ensures { result ≡ tests.is_sound_target kind (targets_unit (maps_of graph.now) (id_of_number graph.now member))
        (trait_of (maps_of graph.now) (id_of_number graph.now member)) (Some target) }
{
    may_target(kind, targets_unit(graph, member), target)
        && are_formed(graph, member, target)
        && is_enum_value_where(kind, trait_node(graph, member, ENUM_VALUE))
}

// Whether the first member of a map has texts, where its target is there.
fn has_text_key(graph: &Graph, kind: Kind, members: &[u32]) -> bool
    requires { AreShapeNumbers graph.now members.now }
    ensures { result ≡ tests.has_text_key (maps_of graph.now) kind (map (id_of_number graph.now) members.now) }
{
    match kind {
        Kind::Map => is_text_key(graph, members),
        _ => true,
    }
}

fn is_text_key(graph: &Graph, members: &[u32]) -> bool
    requires { AreShapeNumbers graph.now members.now }
    ensures { result ≡ tests.has_text_key (maps_of graph.now) map_kind (map (id_of_number graph.now) members.now) }
{
    match members.first() {
        Some(key) => is_text_where(target_kind(graph, *key)),
        None => true,
    }
}

fn is_text_where(kind: Option<Kind>) -> bool
    ensures { result ≡ tests.is_text_where kind }
{
    match kind {
        Some(kind) => is_text_kind(kind),
        None => true,
    }
}
