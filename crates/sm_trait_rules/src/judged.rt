// Traits of shapes and of their members, judged by the table.
ghost use Rattle.std.specs.Prelude.{◌≡◌, ℕ, Bool, List, OnOk};
ghost use Rattle.sm_tree.specs.Node.{Node};
ghost use Rattle.sm_tree.specs.View.{node_of};
ghost use Rattle.sm_model.specs.GraphView.{AreShapeNumbers, IsShapeNumber, maps_of};
ghost use Rattle.sm_model.specs.Reaching.{id_of_number};
ghost use Rattle.sm_rules.specs.RuleEvents.{Puts};
ghost use Rattle.sm_trait_rules.specs.steps.Judging.{ToldJudged, ToldMember, ToldShape, ToldTrait, ToldTraits, behind_of, is_own_member};
ghost use Rattle.sm_trait_rules.specs.steps.Silent.{none_judged};
ghost use Rattle.sm_passes.specs.Putting.{ToldOf};

use sm_compile::{id_text, kind_of, members_of, target_of};
use sm_model::{Graph, Kind, is_in_prelude};
use sm_passes::carried::is_member;
use sm_passes::each::AtOwn;
use sm_passes::putting::{Events, Put, put_if};
use sm_passes::rows::place::{Behind, Stand};
use sm_rules::Rule;
use sm_tree::{Text, Tree};
use std::alloc::Global;

/// Who judges traits by the table.
pub trait Judge {
    ghost use Rattle.sm_rules.specs.declared.rule.Rule.{Rule};
    ghost use Rattle.sm_passes.specs.declared.rows.place.Stand.{Stand};

    /// For which rule.
    ghost rule: { Self → Rule };
    /// A trait with this value that stands there is wrong.
    ghost wrong: { Self → List ℕ → Stand → Node → Bool };

    /// The rule.
    fn rule(&self) -> Rule
        ensures { result ≡ rule self.now };

    /// Whether it is wrong.
    fn is_wrong(&self, name: &str, at: Stand, tree: &Tree) -> bool
        ensures { result ≡ wrong self.now name.now at (node_of tree.now) };
}

/// What is told by a judge.
#[derive(Drop)]
pub struct Judged<'a, J> {
    /// Who judges.
    pub judge: &'a J,
}

impl<J: Judge> AtOwn for Judged<'_, J> {
    ghost tells = { λ told. ToldJudged (J.rule told.judge.now) (J.wrong told.judge.now) };

    ghost knows = { λ told g. Unit {0} };

    fn put_own(&self, alloc: Global, graph: &Graph, number: u32, events: &mut Events) -> Put {
        match kind_of(graph, number) {
            Some(kind) => {
                put_shape(alloc, graph, self.judge, number, kind, events)?;
                Ok(())
            }
            None => Ok(()),
        }
    }

    ghost silent = { λ told. none_judged (J.rule told.judge.now) (J.wrong told.judge.now) };
}

// Of a shape of this type, and of its members.
fn put_shape<J: Judge>(
    alloc: Global,
    graph: &Graph,
    judge: &J,
    number: u32,
    kind: Kind,
    events: &mut Events,
) -> Put
    requires { IsShapeNumber graph.now number }
    ensures { OnOk result
        (Puts (ToldShape (J.rule judge.now) (J.wrong judge.now) (maps_of graph.now) (id_of_number graph.now number) kind)
        events.old.items events.new.items) }
{
    put_judged(alloc, graph, judge, number, Stand::Shape(kind), events)?;
    put_members(alloc, graph, judge, kind, members_of(graph, number), events)?;
    Ok(())
}

fn put_members<J: Judge>(
    alloc: Global,
    graph: &Graph,
    judge: &J,
    home: Kind,
    members: &[u32],
    events: &mut Events,
) -> Put
    requires { AreShapeNumbers graph.now members.now }
    ensures { OnOk result
        (Puts (ToldOf (λ k. ToldMember (J.rule judge.now) (J.wrong judge.now) (maps_of graph.now) home (id_of_number graph.now k))
        members.now) events.old.items events.new.items) }
{
    for member in members {
        put_member(alloc, graph, judge, home, *member, events)?;
    }
    Ok(())
}

fn put_member<J: Judge>(
    alloc: Global,
    graph: &Graph,
    judge: &J,
    home: Kind,
    member: u32,
    events: &mut Events,
) -> Put
    requires { IsShapeNumber graph.now member }
    ensures { OnOk result
        (Puts (ToldMember (J.rule judge.now) (J.wrong judge.now) (maps_of graph.now) home (id_of_number graph.now member))
        events.old.items events.new.items) }
{
    if is_own_member(graph, member) {
        let at = Stand::Member(home, behind_of(graph, member));
        put_judged(alloc, graph, judge, member, at, events)?;
    }
    Ok(())
}

fn is_own_member(graph: &Graph, number: u32) -> bool
    requires { IsShapeNumber graph.now number }
    ensures { result ≡ is_own_member (maps_of graph.now) (id_of_number graph.now number) }
{
    is_member(graph, number) && !is_in_prelude(id_text(graph, number))
}

// What stands behind the target of a member.
fn behind_of(graph: &Graph, member: u32) -> Behind
    requires { IsShapeNumber graph.now member }
    ensures { result ≡ behind_of (maps_of graph.now) (id_of_number graph.now member) }
{
    match target_of(graph, member) {
        Some(target) => match kind_of(graph, target) {
            Some(kind) => Behind::Shape(kind),
            None => Behind::Member,
        },
        None => Behind::Nothing,
    }
}

// Of what stands at a number, at this place.
fn put_judged<J: Judge>(
    alloc: Global,
    graph: &Graph,
    judge: &J,
    number: u32,
    at: Stand,
    events: &mut Events,
) -> Put
    requires { IsShapeNumber graph.now number }
    ensures { OnOk result
        (Puts (ToldTraits (J.rule judge.now) (J.wrong judge.now) (maps_of graph.now) (id_of_number graph.now number) at)
        events.old.items events.new.items) }
{
    put_traits(
        alloc,
        graph,
        judge,
        number,
        at,
        graph.traits(number),
        events,
    )?;
    Ok(())
}

fn put_traits<J: Judge>(
    alloc: Global,
    graph: &Graph,
    judge: &J,
    number: u32,
    at: Stand,
    traits: &[(Text, Tree)],
    events: &mut Events,
) -> Put
    requires { IsShapeNumber graph.now number }
    ensures { OnOk result
        (Puts (ToldOf (ToldTrait (J.rule judge.now) (J.wrong judge.now) (id_of_number graph.now number) at) traits.now)
        events.old.items events.new.items) }
{
    for pair in traits {
        put_trait(alloc, graph, judge, number, at, pair, events)?;
    }
    Ok(())
}

fn put_trait<J: Judge>(
    alloc: Global,
    graph: &Graph,
    judge: &J,
    number: u32,
    at: Stand,
    pair: &(Text, Tree),
    events: &mut Events,
) -> Put
    requires { IsShapeNumber graph.now number }
    ensures { OnOk result
        (Puts (ToldTrait (J.rule judge.now) (J.wrong judge.now) (id_of_number graph.now number) at pair.now)
        events.old.items events.new.items) }
{
    let wrong = judge.is_wrong(pair.0.as_str(), at, &pair.1);
    put_if(
        alloc,
        graph,
        judge.rule(),
        number,
        wrong,
        pair.0.as_str(),
        events,
    )?;
    Ok(())
}
