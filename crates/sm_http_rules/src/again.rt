// Names that earlier members of a shape have too.
ghost use Rattle.std.specs.Prelude.{◌≡◌, ◌++◌, [], IfOk, OnOk, true};
ghost use Rattle.std.specs.List.{cons_option};
ghost use Rattle.sm_model.specs.GraphView.{AreShapeNumbers, IsShapeNumber, maps_of};
ghost use Rattle.sm_model.specs.Reaching.{id_of_number};
ghost use Rattle.sm_rules.specs.RuleEvents.{Puts};
ghost use Rattle.sm_passes.specs.Owned.{is_own_shape};
ghost use Rattle.sm_http_rules.specs.steps.Naming.{ToldAgain, ToldName, name_row, name_rows};

use crate::naming::{Naming, key_of, name_of};
use sm_compile::members_of;
use sm_model::Graph;
use sm_passes::earlier::{OfFirst, put_later};
use sm_passes::putting::{Events, Put, put_event};
use sm_rules::Rule;
use sm_tree::{NoMemory, Text};
use std::alloc::Global;

/// Puts the events of names of a shape's members. n log n.
pub(crate) fn put_again(
    alloc: Global,
    graph: &Graph,
    naming: Naming,
    shape: u32,
    events: &mut Events,
) -> Put
    requires shape { IsShapeNumber graph.now shape }
    requires own { is_own_shape (maps_of graph.now) (id_of_number graph.now shape) ≡ true }
    ensures { OnOk result
        (Puts (ToldAgain naming (maps_of graph.now) (id_of_number graph.now shape)) events.old.items events.new.items) }
{
    let rows = name_rows(alloc, graph, naming, shape, members_of(graph, shape))?;
    put_later(
        alloc,
        graph,
        &NamedBy { naming, shape },
        rows.as_slice(),
        events,
    )?;
    Ok(())
}

fn name_rows(
    alloc: Global,
    graph: &Graph,
    naming: Naming,
    shape: u32,
    members: &[u32],
) -> Result<Vec<(Text, u32)>, NoMemory>
    requires shape { IsShapeNumber graph.now shape }
    requires numbers { AreShapeNumbers graph.now members.now }
    ensures { IfOk result (λ rows. rows.items ≡ name_rows naming graph.now shape members.now) }
{
    let mut rows = Vec::new(alloc);
    for member in members {
        put_name_row(alloc, graph, naming, shape, *member, &mut rows)?;
    }
    Ok(rows)
}

fn put_name_row(
    alloc: Global,
    graph: &Graph,
    naming: Naming,
    shape: u32,
    member: u32,
    rows: &mut Vec<(Text, u32)>,
) -> Result<(), NoMemory>
    requires shape { IsShapeNumber graph.now shape }
    requires member { IsShapeNumber graph.now member }
    ensures { OnOk result (rows.new.items ≡ rows.old.items ++ cons_option (name_row naming graph.now shape member) []) }
{
    match name_of(graph, naming, shape, member) {
        Some(name) => {
            let key = key_of(alloc, naming, name)?;
            rows.push((key, member))?;
            Ok(())
        }
        None => Ok(()),
    }
}

// The members of a shape, by their names.
#[derive(Drop)]
struct NamedBy {
    naming: Naming,
    shape: u32,
}

impl OfFirst for NamedBy {
    ghost tells = { λ rule g. ToldName rule.naming g rule.shape };

    ghost knows = { λ rule g. IsShapeNumber g rule.shape };

    fn put_of(
        &self,
        alloc: Global,
        graph: &Graph,
        _first: u32,
        number: u32,
        events: &mut Events,
    ) -> Put {
        match name_of(graph, self.naming, self.shape, number) {
            Some(name) => {
                put_event(alloc, graph, Rule::WireNames, number, name, events)?;
                Ok(())
            }
            None => Ok(()),
        }
    }
}
