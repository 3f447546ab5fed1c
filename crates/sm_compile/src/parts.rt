// What the rows of a table are made from: the numbers of its shapes in the graph, and its patterns. Where a graph is in order what is
// looked up here is there.
ghost use Rattle.std.specs.Prelude.{◌≡◌, ◌<◌, ◌^◌, ℕ, List, None, Some, get_or, length, slice_get};
ghost use Rattle.std.specs.List.{Contains};
ghost use Rattle.std.specs.List.Sorted.{IsStrictlySortedBy};
ghost use Rattle.std.specs.Ordering.{nat_cmp};
ghost use Rattle.std.specs.Option.{ForSome};
ghost use Rattle.sm_model.specs.Graphs.{member_id};
ghost use Rattle.sm_model.specs.GraphView.{IsShapeNumber, maps_of};
ghost use Rattle.sm_model.specs.Reaching.{id_of_number};
ghost use Rattle.sm_model.specs.declared.kind.Kind.{Kind as TypeOfShape};
ghost use Rattle.sm_compile.specs.Compiled.{NamesText, members_under};
ghost use Rattle.sm_compile.specs.Said.{pattern_seen};
ghost use Rattle.sm_compile.specs.Sound.{IsSoundMember};
ghost use Rattle.sm_compile.specs.steps.Carrying.{texts_in};
ghost use Rattle.sm_compile.specs.steps.Looked.{kind_under, target_under};
ghost use Rattle.sm_compile.specs.steps.Placing.{AreParts, HasPlace};
ghost use Rattle.sm_compile.specs.steps.Seeing.{traits_seen};

use crate::look::{kind_of, target_of};
use crate::names::member_name;
use crate::patterns::{CarriedTexts, pattern_number};
use crate::rows::MemberPlace;
use crate::seen::SeenTraits;
use crate::values::EnumValues;
use sm_model::{Graph, Kind};
use sm_tree::Text;

/// What rows are made from.
#[derive(Clone, Copy, Drop)]
pub(crate) struct Parts<'a, 'g> {
    /// The graph.
    pub graph: &'a Graph,
    /// The numbers of the table's shapes in the graph, in order.
    pub shapes: &'a [u32],
    /// The patterns that are carried.
    pub carried: &'a CarriedTexts<'g>,
    /// The patterns that are carried, with their numbers in the store.
    pub patterns: &'a [(u32, Text)],
    /// The values of the shapes, in the same order.
    pub values: &'a [EnumValues],
}

/// The type of a shape.
pub(crate) fn kind_at(graph: &Graph, number: u32) -> Kind
    requires number { IsShapeNumber graph.now number }
    requires shape { kind_under (maps_of graph.now) (id_of_number graph.now number) ≡ None → ⊥ }
    ensures { kind_under (maps_of graph.now) (id_of_number graph.now number) ≡ Some result }
{
    match kind_of(graph, number) {
        Some(kind) => kind,
        None => unreachable!(),
    }
}

/// The number of the target of a member that is in order.
pub(crate) fn target_at(graph: &Graph, member: u32) -> u32
    requires number { IsShapeNumber graph.now member }
    requires sound { (kind : TypeOfShape) × IsSoundMember (maps_of graph.now) kind (id_of_number graph.now member) }
    ensures number { IsShapeNumber graph.now result }
    ensures target { target_under (maps_of graph.now) (id_of_number graph.now member) ≡ Some (id_of_number graph.now result) }
{
    match target_of(graph, member) {
        Some(target) => target,
        None => unreachable!(),
    }
}

/// The name of a member of a shape.
pub(crate) fn name_at<'a>(graph: &'a Graph, shape: u32, member: u32) -> &'a str
    requires shape { IsShapeNumber graph.now shape }
    requires member { IsShapeNumber graph.now member }
    requires named { (name : List ℕ) × (id_of_number graph.now member ≡ member_id (id_of_number graph.now shape) name) }
    ensures { id_of_number graph.now member ≡ member_id (id_of_number graph.now shape) result.now }
{
    match member_name(graph, shape, member) {
        Some(name) => name,
        None => unreachable!(),
    }
}

/// The number in the table of the shape that has this one in the graph. A binary search.
pub fn row_at(shapes: &[u32], number: u32) -> u32
    requires few { length shapes.now < 2 ^ 32 }
    requires rise { IsStrictlySortedBy nat_cmp shapes.now }
    requires there { Contains shapes.now number }
    ensures { slice_get shapes.now result ≡ Some number }
{
    match shapes.binary_search(&number) {
        Ok(row) => row as u32,
        Err(_) => unreachable!(),
    }
}

impl Parts<'_, '_> {
    /// Where a member of the shape of this row stands.
    pub(crate) fn member_place(&self, home_row: u32, member: u32) -> MemberPlace
        requires parts { AreParts self.now.graph.now self.now.shapes.now self.now.carried.now self.now.patterns.now }
        requires home { home_row < length self.now.shapes.now }
        requires member { IsShapeNumber self.now.graph.now member }
        requires among { Contains
            (members_under (maps_of self.now.graph.now) (id_of_number self.now.graph.now (get_or self.now.shapes.now home_row 0)))
            (id_of_number self.now.graph.now member) }
        ensures { HasPlace self.now.graph.now self.now.shapes.now home_row member result }
    {
        let shape = self.shapes[home_row as usize];
        let target = target_at(self.graph, member);
        MemberPlace {
            member,
            target,
            home_kind: kind_at(self.graph, shape),
            target_kind: kind_at(self.graph, target),
            home_row,
            target_row: row_at(self.shapes, target),
        }
    }

    /// The number in the store of the pattern that counts for values of a type, at a shape or at a member with its target.
    pub(crate) fn pattern_at(&self, own: u32, target: Option<u32>, kind: Kind) -> Option<u32>
        requires parts { AreParts self.now.graph.now self.now.shapes.now self.now.carried.now self.now.patterns.now }
        requires own { IsShapeNumber self.now.graph.now own }
        requires target { ForSome target (λ t. IsShapeNumber self.now.graph.now t) }
        requires among { (u : List ℕ) → pattern_seen kind (traits_seen self.now.graph.now own target) ≡ Some u
            → Contains (texts_in self.now.carried.now) u }
        ensures { NamesText self.now.patterns.now result (pattern_seen kind (traits_seen self.now.graph.now own target)) }
    {
        let seen = SeenTraits {
            graph: self.graph,
            own,
            target,
        };
        pattern_number(self.carried, self.patterns, seen.pattern(kind))
    }
}
