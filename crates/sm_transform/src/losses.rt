// What can't be without a shape or member that is gone.
ghost use Rattle.std.specs.Prelude.{◌≡◌, ◌⊎◌, ◌↔◌, IfOk, OnOk, true};
ghost use Rattle.std.specs.List.{Contains};
ghost use Rattle.sm_model.specs.GraphView.{IsShapeNumber, maps_of};
ghost use Rattle.sm_model.specs.declared.link.Link.{Link as LinkSaid};
ghost use Rattle.sm_model.specs.Reaching.{id_of_number};
ghost use Rattle.sm_model.specs.declared.kind.Kind.TheVariants.{List as list_kind, Map as map_kind};
ghost use Rattle.sm_model.specs.steps.Linking.{Adds};
ghost use Rattle.sm_select.specs.Ways.{AreWays};
ghost use Rattle.sm_transform.specs.Excluded.{IsCollection};
ghost use Rattle.sm_transform.specs.steps.Steps.{AreLedBy, GoesBack, IsLost, IsLostBack, IsLostOn, LeadBy};
ghost use Rattle.sm_transform.specs.steps.Steps.{Losses, LossesBack, LossesBy, LossesOn};

use crate::numbers::is_of_api_at;
use crate::steps::push_step;
use sm_model::{Graph, Kind, Link, Relation};
use sm_select::{Neighbors, Ways};
use sm_tree::NoMemory;
use std::alloc::Global;

/// For each number of a graph the numbers of what is lost where it is gone.
pub(crate) fn lost_rows(alloc: Global, graph: &Graph, ways: &Ways) -> Result<Neighbors, NoMemory>
    requires { AreWays graph.now ways.now }
    ensures { IfOk result (λ rows. LeadBy graph.now (IsLost (maps_of graph.now)) rows) }
{
    let steps = lost_steps(alloc, graph, ways)?;
    Neighbors::new(alloc, graph.count(), steps.as_slice(), false)
}

// The steps to what is lost.
fn lost_steps(alloc: Global, graph: &Graph, ways: &Ways) -> Result<Vec<Link>, NoMemory>
    requires { AreWays graph.now ways.now }
    ensures { IfOk result (λ steps. AreLedBy graph.now (IsLost (maps_of graph.now)) steps.items) }
{
    let mut steps = Vec::new(alloc);
    put_losses(graph, ways.links.as_slice(), &mut steps)?;
    Ok(steps)
}

// Appends those by these links.
fn put_losses(graph: &Graph, links: &[Link], steps: &mut Vec<Link>) -> Result<(), NoMemory>
    requires { (l : LinkSaid) → Contains links.now l → IsShapeNumber graph.now l.from × IsShapeNumber graph.now l.to }
    ensures { OnOk result (Adds (Losses graph.now links.now) steps.old.items steps.new.items) }
{
    for link in links {
        put_loss(graph, link, steps)?;
    }
    Ok(())
}

// Appends those by a link.
fn put_loss(graph: &Graph, link: &Link, steps: &mut Vec<Link>) -> Result<(), NoMemory>
    requires from { IsShapeNumber graph.now link.now.from }
    requires to { IsShapeNumber graph.now link.now.to }
    ensures { OnOk result (Adds (LossesBy graph.now link.now) steps.old.items steps.new.items) }
{
    put_loss_on(graph, link, steps)?;
    put_loss_back(graph, link, steps)
}

fn put_loss_on(graph: &Graph, link: &Link, steps: &mut Vec<Link>) -> Result<(), NoMemory>
    requires { IsShapeNumber graph.now link.now.to }
    ensures { OnOk result (Adds (LossesOn graph.now link.now) steps.old.items steps.new.items) }
{
    if is_lost_on(graph, link) {
        push_step(link.from, link.to, steps)
    } else {
        Ok(())
    }
}

fn put_loss_back(graph: &Graph, link: &Link, steps: &mut Vec<Link>) -> Result<(), NoMemory>
    requires { IsShapeNumber graph.now link.now.from }
    ensures { OnOk result (Adds (LossesBack graph.now link.now) steps.old.items steps.new.items) }
{
    if is_lost_back(graph, link) {
        push_step(link.to, link.from, steps)
    } else {
        Ok(())
    }
}

// Whether what a link leads to is lost with what it leads from.
fn is_lost_on(graph: &Graph, link: &Link) -> bool
    requires { IsShapeNumber graph.now link.now.to }
    ensures { (result ≡ true) ↔ IsLostOn graph.now link.now }
{
    match link.relation {
        Relation::Member => !is_of_api_at(graph, link.to),
        Relation::Container => false,
        Relation::Target => false,
        Relation::Input => false,
        Relation::Output => false,
        Relation::Error => false,
        Relation::Operation => false,
        Relation::Resource => false,
        Relation::Identifier => false,
        Relation::Property => false,
    }
}

// Whether what a link leads from is lost with what it leads to.
fn is_lost_back(graph: &Graph, link: &Link) -> bool
    requires { IsShapeNumber graph.now link.now.from }
    ensures { (result ≡ true) ↔ IsLostBack graph.now link.now }
{
    if is_of_api_at(graph, link.from) {
        false
    } else {
        goes_back(graph, link)
    }
}

fn goes_back(graph: &Graph, link: &Link) -> bool
    requires { IsShapeNumber graph.now link.now.from }
    ensures { (result ≡ true) ↔ GoesBack graph.now link.now }
{
    match link.relation {
        Relation::Member => is_collection(graph, link.from),
        Relation::Container => false,
        Relation::Target => true,
        Relation::Input => true,
        Relation::Output => true,
        Relation::Error => false,
        Relation::Operation => false,
        Relation::Resource => false,
        Relation::Identifier => false,
        Relation::Property => false,
    }
}

// Whether a list or a map stands at a number.
fn is_collection(graph: &Graph, number: u32) -> bool
    requires { IsShapeNumber graph.now number }
    ensures { (result ≡ true) ↔ IsCollection (maps_of graph.now) (id_of_number graph.now number) }
{
    if graph.is_member(number) {
        return false;
    }
    is_list_or_map(graph.kind(number))
}

fn is_list_or_map(kind: Kind) -> bool
    ensures { (result ≡ true) ↔ ((kind ≡ list_kind) ⊎ (kind ≡ map_kind)) }
{
    match kind {
        Kind::List => true,
        Kind::Map => true,
        Kind::Blob => false,
        Kind::Boolean => false,
        Kind::Text => false,
        Kind::Enum => false,
        Kind::Byte => false,
        Kind::Short => false,
        Kind::Integer => false,
        Kind::IntEnum => false,
        Kind::Long => false,
        Kind::Float => false,
        Kind::Double => false,
        Kind::BigInteger => false,
        Kind::BigDecimal => false,
        Kind::Timestamp => false,
        Kind::Document => false,
        Kind::Structure => false,
        Kind::Union => false,
        Kind::Service => false,
        Kind::Operation => false,
        Kind::Resource => false,
    }
}
