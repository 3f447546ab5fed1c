// The model that a change makes of an accepted one.
ghost use Rattle.sm_model.specs.FormedGraph.{IsFormedGraph};
ghost use Rattle.sm_model.specs.GraphView.{maps_of};
ghost use Rattle.sm_ids.specs.Identifier.{IsNamespace};
ghost use Rattle.sm_select.specs.Selectors.{steps_of};
ghost use Rattle.sm_select.specs.View.{selector_view};
ghost use Rattle.sm_transform.specs.Changed.{exclude, include, rename};
ghost use Rattle.sm_transform.specs.Renamed.{HasTraitIds};
ghost use Rattle.sm_transformed.specs.Transformed.{Changes, IsSaid, TransformsTo, change_of};

use crate::change::{Transform, TransformRefusal};
use crate::judging::judged;
use sm_load::Model;
use sm_model::Graph;
use sm_select::Selector;
use sm_transform::{RenameRefusal, excluded, included, renamed};
use std::alloc::Global;

/// The model that a change makes of an accepted graph. `Namespace` exactly where a namespace can't get the other name; `Rejected`
/// exactly where some rule rejects the changed graph, with all its events; else the changed graph with its events. n log n, and what
/// `sm_load::events` takes. `NoMemory` where the allocator refuses memory.
pub fn transform(
    alloc: Global,
    graph: &Graph,
    change: &Transform,
) -> Result<Model, TransformRefusal>
    requires formed { IsFormedGraph (maps_of graph.now) }
    requires traits { HasTraitIds (maps_of graph.now) }
    requires said { IsSaid (change_of change.now) }
    ensures { TransformsTo (maps_of graph.now) (change_of change.now) result }
{
    match changed(alloc, graph, change) {
        Ok(made) => judged(alloc, made),
        Err(refusal) => Err(refusal),
    }
}

// The changed graph.
fn changed(alloc: Global, graph: &Graph, change: &Transform) -> Result<Graph, TransformRefusal>
    requires formed { IsFormedGraph (maps_of graph.now) }
    requires traits { HasTraitIds (maps_of graph.now) }
    requires said { IsSaid (change_of change.now) }
    ensures { Changes (maps_of graph.now) (change_of change.now) result }
{
    match change {
        Transform::Include(selector) => with_part(alloc, graph, selector),
        Transform::Exclude(selector) => without_part(alloc, graph, selector),
        Transform::Rename(from, to) => with_name(alloc, graph, from.as_str(), to.as_str()),
    }
}

fn with_part(alloc: Global, graph: &Graph, selector: &Selector) -> Result<Graph, TransformRefusal>
    requires { IsFormedGraph (maps_of graph.now) }
    ensures { Changes (maps_of graph.now) (include (steps_of (selector_view selector.now))) result }
{
    match included(alloc, graph, selector) {
        Ok(made) => Ok(made),
        Err(_) => Err(TransformRefusal::NoMemory),
    }
}

fn without_part(
    alloc: Global,
    graph: &Graph,
    selector: &Selector,
) -> Result<Graph, TransformRefusal>
    requires { IsFormedGraph (maps_of graph.now) }
    ensures { Changes (maps_of graph.now) (exclude (steps_of (selector_view selector.now))) result }
{
    match excluded(alloc, graph, selector) {
        Ok(made) => Ok(made),
        Err(_) => Err(TransformRefusal::NoMemory),
    }
}

fn with_name(alloc: Global, graph: &Graph, from: &str, to: &str) -> Result<Graph, TransformRefusal>
    requires formed { IsFormedGraph (maps_of graph.now) }
    requires traits { HasTraitIds (maps_of graph.now) }
    requires namespace { IsNamespace to.now }
    ensures { Changes (maps_of graph.now) (rename from.now to.now) result }
{
    match renamed(alloc, graph, from, to) {
        Ok(made) => Ok(made),
        Err(RenameRefusal::Namespace) => Err(TransformRefusal::Namespace),
        Err(RenameRefusal::NoMemory) => Err(TransformRefusal::NoMemory),
    }
}
