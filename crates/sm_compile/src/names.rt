// The names of a shape's members, and those that they have in JSON.
ghost use Rattle.std.specs.Prelude.{◌≡◌, ◌↔◌, ◌∷◌, ◌++◌, [], ℕ, List, IfOk, IsTrue, MatchOption, codes, map, unwrap_or};
ghost use Rattle.sm_bytes.specs.Ascii.{dollar};
ghost use Rattle.sm_model.specs.Formed.{DifferInNames, HaveForm};
ghost use Rattle.sm_model.specs.Graphs.{member_id};
ghost use Rattle.sm_model.specs.GraphView.{AreShapeNumbers, IsShapeNumber, maps_of};
ghost use Rattle.sm_model.specs.Kinds.{member_form};
ghost use Rattle.sm_model.specs.Reaching.{id_of_number};
ghost use Rattle.sm_compile.specs.Sound.{trait_of};
ghost use Rattle.sm_compile.specs.TraitIds.{json_name_id};
ghost use Rattle.sm_compile.specs.TraitNodes.{text_of};
ghost use Rattle.sm_compile.specs.steps.Naming.{TellsNames, texts_of_all};

use crate::differ::texts_differ;
use crate::look::{id_text, trait_node};
use crate::trait_ids::JSON_NAME;
use crate::traits::text_in_trait;
use sm_model::{Graph, Kind};
use sm_tree::NoMemory;
use std::alloc::Global;

/// The names of a shape's members, and those that they have in JSON where JSON names are looked at, in model order.
#[derive(Drop)]
pub(crate) struct Names<'a> {
    /// The names.
    pub names: Vec<&'a str>,
    /// Those in JSON.
    pub json_names: Vec<&'a str>,
}

/// The name of a member of a shape: what stands behind the shape's id and `$` in the member's. `None` where it is no member's id.
/// No memory.
pub fn member_name<'a>(graph: &'a Graph, shape: u32, member: u32) -> Option<&'a str>
    requires shape { IsShapeNumber graph.now shape }
    requires member { IsShapeNumber graph.now member }
    ensures { MatchOption result
        ((name : List ℕ) → id_of_number graph.now member ≡ member_id (id_of_number graph.now shape) name → ⊥)
        (λ name. id_of_number graph.now member ≡ member_id (id_of_number graph.now shape) name.now) }
{
    match behind(id_text(graph, member), id_text(graph, shape)) {
        Some(rest) => behind_dollar(rest),
        None => None,
    }
}

// What stands behind these bytes in a text that begins with them.
fn behind<'a>(text: &'a str, before: &str) -> Option<&'a str>
    ensures { MatchOption result
        ((rest : List ℕ) → text.now ≡ before.now ++ rest → ⊥)
        (λ rest. text.now ≡ before.now ++ rest.now) }
{
    text.strip_prefix(before)
}

fn behind_dollar(text: &str) -> Option<&str>
    ensures { MatchOption result
        ((rest : List ℕ) → text.now ≡ dollar ∷ rest → ⊥)
        (λ rest. text.now ≡ dollar ∷ rest.now) }
{
    text.strip_prefix('$')
}

/// The names of these members of a shape; `None` where the id of one is none of a member of the shape.
pub(crate) fn names_of<'a>(
    alloc: Global,
    graph: &'a Graph,
    shape: u32,
    members: &[u32],
) -> Result<Option<Names<'a>>, NoMemory>
    requires number { IsShapeNumber graph.now shape }
    requires numbers { AreShapeNumbers graph.now members.now }
    ensures { IfOk result (λ names.
        TellsNames (maps_of graph.now) (id_of_number graph.now shape) (map (id_of_number graph.now) members.now) names) }
{
    let mut names = Vec::with_capacity(alloc, members.len())?;
    let mut json_names = Vec::with_capacity(alloc, members.len())?;
    for member in members {
        match member_name(graph, shape, *member) {
            Some(name) => {
                match names.push(name) {
                    Ok(()) => {}
                    Err(_) => return Err(NoMemory),
                }
                match json_names.push(json_name(graph, *member, name)) {
                    Ok(()) => {}
                    Err(_) => return Err(NoMemory),
                }
            }
            None => return Ok(None),
        }
    }
    Ok(Some(Names { names, json_names }))
}

/// The name that a member of this name has where JSON names are looked at. No memory.
pub fn json_name<'a>(graph: &'a Graph, member: u32, name: &'a str) -> &'a str
    requires { IsShapeNumber graph.now member }
    ensures { result.now ≡ unwrap_or (text_of (trait_of (maps_of graph.now) (id_of_number graph.now member) json_name_id)) name.now }
{
    match text_in_trait(trait_node(graph, member, JSON_NAME)) {
        Some(json_name) => json_name,
        None => name,
    }
}

/// Whether a shape of this type may have members of these names. n log n.
pub(crate) fn have_form(kind: Kind, names: Vec<&str>) -> bool
    ensures { IsTrue result ↔ HaveForm (member_form kind) (texts_of_all names.entry.items) }
{
    match kind {
        Kind::List => is_of_list(names.as_slice()),
        Kind::Map => is_of_map(names.as_slice()),
        Kind::Structure => names_differ(names),
        Kind::Union => names_differ(names),
        Kind::Enum => names_differ(names),
        Kind::IntEnum => names_differ(names),
        _ => names.is_empty(),
    }
}

fn names_differ(names: Vec<&str>) -> bool
    ensures { IsTrue result ↔ DifferInNames (texts_of_all names.entry.items) }
{
    texts_differ(names)
}

fn is_of_list(names: &[&str]) -> bool
    ensures { IsTrue result ↔ (texts_of_all names.now ≡ codes "member" ∷ []) }
{
    if names.len() == 1 {
        is_text(names[0], "member")
    } else {
        false
    }
}

fn is_of_map(names: &[&str]) -> bool
    ensures { IsTrue result ↔ (texts_of_all names.now ≡ codes "key" ∷ codes "value" ∷ []) }
{
    if names.len() == 2 {
        are_two(names[0], names[1])
    } else {
        false
    }
}

fn are_two(key: &str, value: &str) -> bool
    ensures { IsTrue result ↔ ((key.now ≡ codes "key") × (value.now ≡ codes "value")) }
{
    if is_text(key, "key") {
        is_text(value, "value")
    } else {
        false
    }
}

fn is_text(text: &str, wanted: &str) -> bool
    ensures { IsTrue result ↔ (text.now ≡ wanted.now) }
{
    text == wanted
}
