// Member.Case: names of members of a shape differ, not by case alone.
ghost use Rattle.std.specs.Prelude.{◌≡◌, IfOk, OnOk, length};
ghost use Rattle.sm_model.specs.GraphView.{AreShapeNumbers, IsShapeNumber, maps_of};
ghost use Rattle.sm_rules.specs.Names.{RepeatsName};
ghost use Rattle.sm_rules.specs.RuleEvents.{IsEventIn, IsEventOf, Puts};
ghost use Rattle.sm_rules.specs.declared.rule.Rule.TheVariants.{MemberCase};
ghost use Rattle.sm_passes.specs.Earlier.{ToldAt, ToldRepeat, folded_rows};
ghost use Rattle.sm_passes.specs.Putting.{Below};

use sm_compile::{id_text, member_name, members_of};
use sm_model::Graph;
use sm_passes::each::{AtEach, put_each};
use sm_passes::earlier::{OfFirst, put_later};
use sm_passes::folded::folded;
use sm_passes::owned::is_own_shape;
use sm_passes::putting::{Events, Put, put_event};
use sm_rules::Rule;
use sm_tree::{NoMemory, Text};
use std::alloc::Global;

#[derive(Drop)]
struct Repeats;

impl AtEach for Repeats {
    ghost tells = { λ rule g. IsEventIn MemberCase (RepeatsName g) (λ id detail h. h.shape) };

    ghost knows = { λ rule g. Unit {0} };

    fn put_at(&self, alloc: Global, graph: &Graph, number: u32, events: &mut Events) -> Put {
        if is_own_shape(graph, number) {
            put_repeats_of(alloc, graph, number, members_of(graph, number), events)?;
            Ok(())
        } else {
            Ok(())
        }
    }
}

/// Puts the events of the rule. n log n.
pub fn put_repeats(alloc: Global, graph: &Graph, events: &mut Events) -> Put
    ensures { OnOk result
        (Puts (IsEventOf MemberCase (RepeatsName (maps_of graph.now))) events.old.items events.new.items) }
{
    put_each(alloc, graph, &Repeats, events)?;
    Ok(())
}

// Of these members of a shape.
fn put_repeats_of(
    alloc: Global,
    graph: &Graph,
    shape: u32,
    members: &[u32],
    events: &mut Events,
) -> Put
    requires shape { IsShapeNumber graph.now shape }
    requires numbers { AreShapeNumbers graph.now members.now }
    ensures { OnOk result
        (Puts (Below (ToldAt (ToldRepeat graph.now shape) (folded_rows graph.now members.now)) (length (folded_rows graph.now members.now)))
        events.old.items events.new.items) }
{
    let rows = folded_members(alloc, graph, members)?;
    put_later(alloc, graph, &NamesOf { shape }, rows.as_slice(), events)?;
    Ok(())
}

// The ids of members in small letters, with their numbers.
fn folded_members(
    alloc: Global,
    graph: &Graph,
    members: &[u32],
) -> Result<Vec<(Text, u32)>, NoMemory>
    requires { AreShapeNumbers graph.now members.now }
    ensures { IfOk result (λ rows. rows.items ≡ folded_rows graph.now members.now) }
{
    let mut rows = Vec::with_capacity(alloc, members.len())?;
    for member in members {
        let key = folded(alloc, id_text(graph, *member))?;
        rows.push((key, *member))?;
    }
    Ok(rows)
}

// The members of a shape.
#[derive(Drop)]
struct NamesOf {
    shape: u32,
}

impl OfFirst for NamesOf {
    ghost tells = { λ rule g. ToldRepeat g rule.shape };

    ghost knows = { λ rule g. IsShapeNumber g rule.shape };

    fn put_of(
        &self,
        alloc: Global,
        graph: &Graph,
        first: u32,
        number: u32,
        events: &mut Events,
    ) -> Put {
        match member_name(graph, self.shape, first) {
            Some(name) => {
                put_event(alloc, graph, Rule::MemberCase, number, name, events)?;
                Ok(())
            }
            None => Ok(()),
        }
    }
}
