// A graph in which a namespace has another name.
ghost use Rattle.std.specs.Prelude.{◌≡◌, ◌++◌, ◌↔◌, IfOk, true};
ghost use Rattle.sm_ids.specs.Identifier.{IsNamespace};
ghost use Rattle.sm_ids.specs.IdText.{member_text};
ghost use Rattle.sm_ids.specs.TextParts.{absolute_id};
ghost use Rattle.sm_ids.specs.View.{id_of};
ghost use Rattle.sm_model.specs.FormedGraph.{IsFormedGraph};
ghost use Rattle.sm_model.specs.GraphView.{maps_of};
ghost use Rattle.sm_transform.specs.Answers.{RenamesTo};
ghost use Rattle.sm_transform.specs.Changed.{IsMadeOf};
ghost use Rattle.sm_transform.specs.IdChanges.{entry_after, id_after};
ghost use Rattle.sm_transform.specs.Renamed.{HasTraitIds, IsRefused, renames};
ghost use Rattle.sm_transform.specs.steps.Changing.{IsLeft, IsSafeFor};

use crate::changed_shapes::changed_graph;
use crate::copies::copied_id;
use crate::ids::ChangesIds;
use crate::knowing::{has_namespace, is_known_in};
use sm_ids::{ShapeId, ShapeIdRef, namespace_and_name};
use sm_model::Graph;
use sm_tree::{NoMemory as OutOfMemory, Text};
use std::alloc::Global;

/// Why a namespace gets no other name.
#[derive(Debug, Clone, Copy, PartialEq, Eq, Drop)]
pub enum RenameRefusal {
    /// It is `smithy.api`, no shape has it, or the graph knows the other: a shape has it, a trait or a key of `rename`.
    Namespace,
    /// The allocator refuses memory.
    NoMemory,
}

/// A graph in which the namespace `from` has the name `to`: in the ids of shapes, members and traits, in targets, in references of
/// bodies and in keys of `rename`. Texts within the values of traits and the metadata stay. n log n.
pub fn renamed(alloc: Global, graph: &Graph, from: &str, to: &str) -> Result<Graph, RenameRefusal>
    requires formed { IsFormedGraph (maps_of graph.now) }
    requires traits { HasTraitIds (maps_of graph.now) }
    requires namespaces { IsNamespace to.now }
    ensures { RenamesTo (maps_of graph.now) from.now to.now result }
{
    if is_refused(graph, from, to) {
        return Err(RenameRefusal::Namespace);
    }
    match with_namespace(alloc, graph, from, to) {
        Ok(changed) => Ok(changed),
        Err(_) => Err(RenameRefusal::NoMemory),
    }
}

fn is_refused(graph: &Graph, from: &str, to: &str) -> bool
    ensures { (result ≡ true) ↔ IsRefused (maps_of graph.now) from.now to.now }
{
    if from == "smithy.api" {
        return true;
    }
    if !has_namespace(graph, from) {
        return true;
    }
    is_known_in(graph, to)
}

fn with_namespace(alloc: Global, graph: &Graph, from: &str, to: &str) -> Result<Graph, OutOfMemory>
    requires formed { IsFormedGraph (maps_of graph.now) }
    requires namespace { IsNamespace to.now }
    requires safe { IsSafeFor (maps_of graph.now) (renames from.now to.now) }
    ensures { IfOk result (λ h. IsMadeOf (IsLeft (renames from.now to.now)) (id_after (renames from.now to.now))
        (entry_after (renames from.now to.now)) (maps_of graph.now) (maps_of h)) }
{
    let change = Renaming { from, to };
    changed_graph(alloc, graph, &change)
}

// Ids of one namespace become those of another.
#[derive(Drop)]
struct Renaming<'a> {
    from: &'a str,
    to: &'a str,
    ghost is_namespace: { IsNamespace to.now },
}

impl ChangesIds for Renaming<'_> {
    ghost after = { λ s. renames s.from.now s.to.now };

    fn keeps(&self, _id: &str) -> bool {
        true
    }

    fn text(&self, alloc: Global, id: &str) -> Result<Option<Text>, OutOfMemory> {
        let parts = namespace_and_name(id);
        if parts.0 == self.from {
            let text = joined(alloc, self.to, parts.1)?;
            return Ok(Some(text));
        }
        let copy = Text::copy(alloc, id)?;
        Ok(Some(copy))
    }

    fn id(&self, alloc: Global, id: &ShapeId) -> Result<Option<ShapeId>, OutOfMemory> {
        let parts = id.as_ref();
        if parts.namespace == self.from {
            let new = in_other(alloc, self.to, &parts)?;
            return Ok(Some(new));
        }
        let copy = copied_id(alloc, id)?;
        Ok(Some(copy))
    }
}

// The text of an id by its namespace and what stands behind it.
fn joined(alloc: Global, namespace: &str, name: &str) -> Result<Text, OutOfMemory>
    ensures { IfOk result (λ text. text ≡ absolute_id namespace.now name.now) }
{
    let mut text = String::from_str(alloc, namespace)?;
    text.push('#')?;
    text.push_str(name)?;
    Ok(Text::new(text))
}

// The id with these parts but its namespace.
fn in_other(alloc: Global, namespace: &str, parts: &ShapeIdRef<'_>) -> Result<ShapeId, OutOfMemory>
    requires { IsNamespace namespace.now }
    ensures { IfOk result (λ id. id ≡ absolute_id namespace.now ((id_of parts.now).name ++ member_text (id_of parts.now).member)) }
{
    let id = ShapeIdRef {
        namespace,
        name: parts.name,
        member: parts.member,
    };
    match ShapeId::new(alloc, &id) {
        Ok(new) => Ok(new),
        Err(_) => Err(OutOfMemory),
    }
}
