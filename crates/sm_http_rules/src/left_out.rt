// From where members and targets lead to values that aren't carried.
ghost use Rattle.std.specs.Prelude.{◌≡◌, ◌++◌, [], IfOk, OnOk, length, true};
ghost use Rattle.std.specs.List.{cons_option, filter_map};
ghost use Rattle.sm_model.specs.GraphView.{entries_of, maps_of};
ghost use Rattle.sm_model.specs.Links.{AreLinks};
ghost use Rattle.sm_model.specs.Reaching.{AreMarks, id_of_number};
ghost use Rattle.sm_http_rules.specs.steps.LeftOut.{AreLeading, AreValueSteps, has_left_out, is_left_out_kind, is_left_out_where};
ghost use Rattle.sm_http_rules.specs.steps.LeftOut.{is_of_values, value_link};

use sm_compile::kind_of;
use sm_model::{Graph, Kind, Link, Relation};
use sm_passes::marked::{NumberTest, marked_where};
use sm_select::{Neighbors, reached};
use sm_tree::NoMemory;
use std::alloc::Global;

// Shapes of types whose values aren't carried.
#[derive(Drop)]
struct LeftOutValues;

impl NumberTest for LeftOutValues {
    ghost passes = { λ test. has_left_out };

    fn passes(&self, graph: &Graph, number: u32) -> bool {
        is_left_out_where(kind_of(graph, number))
    }
}

fn is_left_out_where(kind: Option<Kind>) -> bool
    ensures { result ≡ is_left_out_where kind }
{
    match kind {
        Some(kind) => is_left_out_kind(kind),
        None => false,
    }
}

fn is_left_out_kind(kind: Kind) -> bool
    ensures { result ≡ is_left_out_kind kind }
{
    match kind {
        Kind::Float | Kind::Double | Kind::BigInteger | Kind::BigDecimal | Kind::Document => true,
        _ => false,
    }
}

/// The numbers from which one step or more lead to a shape of such a type, as marks. Each link is looked at a few times.
pub(crate) fn leading_to_left_out(
    alloc: Global,
    graph: &Graph,
    links: &[Link],
) -> Result<Vec<bool>, NoMemory>
    requires { AreLinks graph.now links.now }
    ensures { IfOk result (λ marks. AreLeading graph.now marks.items) }
{
    let steps = value_steps(alloc, graph, links)?;
    let left_out = marked_where(alloc, graph, &LeftOutValues)?;
    let marks = leading_to(alloc, graph, &steps, left_out.as_slice())?;
    Ok(marks)
}

// The same, by steps against members and targets, and the numbers of such shapes.
fn leading_to(
    alloc: Global,
    graph: &Graph,
    steps: &Neighbors,
    left_out: &[bool],
) -> Result<Vec<bool>, NoMemory>
    requires steps { AreValueSteps graph.now steps.now }
    requires left_out { AreMarks (length (entries_of graph.now))
        (λ k. has_left_out (maps_of graph.now) (id_of_number graph.now k) ≡ true) left_out.now }
    ensures { IfOk result (λ marks. AreLeading graph.now marks.items) }
{
    let marks = reached(alloc, steps, left_out)?;
    Ok(marks)
}

// Steps against members and targets.
fn value_steps(alloc: Global, graph: &Graph, links: &[Link]) -> Result<Neighbors, NoMemory>
    requires { AreLinks graph.now links.now }
    ensures { IfOk result (λ steps. AreValueSteps graph.now steps) }
{
    let of_values = value_links(alloc, links)?;
    let steps = steps_against(alloc, graph, links, of_values.as_slice())?;
    Ok(steps)
}

fn steps_against(
    alloc: Global,
    graph: &Graph,
    links: &[Link],
    of_values: &[Link],
) -> Result<Neighbors, NoMemory>
    requires links { AreLinks graph.now links.now }
    requires of_values { of_values.now ≡ filter_map value_link links.now }
    ensures { IfOk result (λ steps. AreValueSteps graph.now steps) }
{
    let steps = Neighbors::new(alloc, graph.count(), of_values, true)?;
    Ok(steps)
}

// The links from a shape to its members, and from a member to its target.
fn value_links(alloc: Global, links: &[Link]) -> Result<Vec<Link>, NoMemory>
    ensures { IfOk result (λ kept. kept.items ≡ filter_map value_link links.now) }
{
    let mut kept = Vec::new(alloc);
    for link in links {
        add_link(*link, &mut kept)?;
    }
    Ok(kept)
}

fn add_link(link: Link, kept: &mut Vec<Link>) -> Result<(), NoMemory>
    ensures { OnOk result (kept.new.items ≡ kept.old.items ++ cons_option (value_link link) []) }
{
    if is_of_values(link.relation) {
        kept.push(link)?;
        Ok(())
    } else {
        Ok(())
    }
}

fn is_of_values(relation: Relation) -> bool
    ensures { result ≡ is_of_values relation }
{
    match relation {
        Relation::Member | Relation::Target => true,
        _ => false,
    }
}
