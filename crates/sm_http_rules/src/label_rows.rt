// Labels of a pattern, and members of an input that are bound to labels, as rows of names.
ghost use Rattle.std.specs.Prelude.{◌≡◌, ◌++◌, ◌∷◌, [], IfOk, OnOk, length};
ghost use Rattle.std.specs.List.{Contains};
ghost use Rattle.sm_model.specs.GraphView.{AreShapeNumbers, IsShapeNumber, entries_of, maps_of};
ghost use Rattle.sm_model.specs.Reaching.{id_of_number};
ghost use Rattle.sm_model.specs.Joins.{Joins};
ghost use Rattle.sm_http_rules.specs.steps.Labels.{AreBound, AreBoundOf, AreEach, BoundRow, is_bound, label_row, rows_of_labels};

use sm_compile::trait_ids::HTTP_LABEL;
use sm_compile::{member_name, members_of};
use sm_model::Graph;
use sm_passes::carried::{carries, is_member};
use sm_passes::owned::is_own_shape;
use sm_tree::{NoMemory, Text};
use sm_uri::Segment;
use std::alloc::Global;
use std::marker::Model;

/// The names of an input's members that are bound to labels, with their numbers. Contracts see the rows.
#[derive(Drop)]
pub(crate) struct BoundRows {
    rows: Vec<(Text, u32)>,
}

impl Model for BoundRows {
    ghost use Rattle.std.specs.Prelude.{List, ℕ};

    ghost Value = { List (List ℕ × ℕ) };

    ghost view = { λ a. a.rows.items };
}

impl BoundRows {
    /// The rows, in order. No memory.
    pub(crate) fn as_slice(&self) -> &[(Text, u32)]
        ensures { result.now ≡ self.now }
    {
        self.rows.as_slice()
    }
}

/// The names of the labels, or of the greedy ones alone.
pub(crate) fn label_rows(
    alloc: Global,
    segments: &[Segment],
    greedy: bool,
) -> Result<Vec<(Text, u32)>, NoMemory>
    ensures { IfOk result (λ rows. rows.items ≡ rows_of_labels greedy segments.now) }
{
    let mut rows = Vec::new(alloc);
    for segment in segments {
        put_label_row(alloc, segment, greedy, &mut rows)?;
    }
    Ok(rows)
}

fn put_label_row(
    alloc: Global,
    segment: &Segment,
    greedy: bool,
    rows: &mut Vec<(Text, u32)>,
) -> Result<(), NoMemory>
    ensures { OnOk result (rows.new.items ≡ rows.old.items ++ label_row greedy segment.now) }
{
    match segment {
        Segment::Literal(_) => Ok(()),
        Segment::Label(name) => {
            if greedy {
                Ok(())
            } else {
                put_name(alloc, name, 0, rows)?;
                Ok(())
            }
        }
        Segment::Greedy(name) => {
            put_name(alloc, name, 0, rows)?;
            Ok(())
        }
    }
}

fn put_name(
    alloc: Global,
    name: &Text,
    number: u32,
    rows: &mut Vec<(Text, u32)>,
) -> Result<(), NoMemory>
    ensures { OnOk result (rows.new.items ≡ rows.old.items ++ (name.now, number) ∷ []) }
{
    let name = Text::copy(alloc, name.as_str())?;
    rows.push((name, number))?;
    Ok(())
}

/// The rows of each number, made once, however many operations have it as their input. Each member is looked at once.
pub(crate) fn all_bound_rows(alloc: Global, graph: &Graph) -> Result<Vec<BoundRows>, NoMemory>
    ensures { IfOk result (λ all. AreEach (AreBoundOf graph.now) [] (length (entries_of graph.now)) all.items) }
{
    let mut all = Vec::with_capacity(alloc, graph.count() as usize)?;
    for number in 0..graph.count() {
        let rows = bound_rows(alloc, graph, number)?;
        all.push(BoundRows { rows })?;
    }
    Ok(all)
}

fn bound_rows(alloc: Global, graph: &Graph, input: u32) -> Result<Vec<(Text, u32)>, NoMemory>
    requires { IsShapeNumber graph.now input }
    ensures { IfOk result (λ rows. AreBoundOf graph.now input rows.items) }
{
    if is_own_shape(graph, input) {
        let rows = bound_among(alloc, graph, input, members_of(graph, input))?;
        Ok(rows)
    } else {
        Ok(Vec::new(alloc))
    }
}

fn bound_among(
    alloc: Global,
    graph: &Graph,
    input: u32,
    members: &[u32],
) -> Result<Vec<(Text, u32)>, NoMemory>
    requires input { IsShapeNumber graph.now input }
    requires members { AreShapeNumbers graph.now members.now }
    ensures { IfOk result (λ rows. AreBound graph.now input members.now rows.items) }
{
    let mut rows = Vec::new(alloc);
    for member in members {
        put_bound_row(alloc, graph, input, *member, &mut rows)?;
    }
    Ok(rows)
}

fn put_bound_row(
    alloc: Global,
    graph: &Graph,
    input: u32,
    member: u32,
    rows: &mut Vec<(Text, u32)>,
) -> Result<(), NoMemory>
    requires input { IsShapeNumber graph.now input }
    requires member { IsShapeNumber graph.now member }
    ensures { OnOk result (Joins (Contains rows.old.items) (BoundRow graph.now input member) (Contains rows.new.items)) }
{
    if !is_bound(graph, member) {
        return Ok(());
    }
    match member_name(graph, input, member) {
        Some(name) => {
            let name = Text::copy(alloc, name)?;
            rows.push((name, member))?;
            Ok(())
        }
        None => Ok(()),
    }
}

fn is_bound(graph: &Graph, member: u32) -> bool
    requires { IsShapeNumber graph.now member }
    ensures { result ≡ is_bound (maps_of graph.now) (id_of_number graph.now member) }
{
    is_member(graph, member) && carries(graph, member, HTTP_LABEL)
}
