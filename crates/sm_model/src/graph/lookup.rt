// Looking up what stands in a graph. No look-up takes memory.
ghost use Rattle.std.specs.Prelude.{◌≡◌, [], IsSomeAnd, MatchOption, None, Some, get_or, length, map, slice_get};
ghost use Rattle.std.specs.FinMap as fin;
ghost use Rattle.sm_ids.specs.IdText.{printed};
ghost use Rattle.sm_ids.specs.View.{id_of};
ghost use Rattle.sm_tree.specs.View.{node_of, members_view};
ghost use Rattle.sm_model.specs.Graphs.{traits_in};
ghost use Rattle.sm_model.specs.GraphView.{AreShapeNumbers, At, HasBodyNode, HasKind, HasMembers, ids, is_member_entry, IsShapeNumber};
ghost use Rattle.sm_model.specs.GraphView.{IsShapeAt, IsMemberAt, Stands, Targets, entries_of, maps_of, target_of};

use super::ordered::value_under;
use super::{Graph, GraphRow, RowEntry};
use crate::kind::Kind;
use sm_ids::{ShapeId, ShapeIdRef};
use sm_tree::{Text, Tree};

impl Graph {
    /// How many shapes and members there are. No memory.
    pub fn count(&self) -> u32
        ensures { result ≡ length (entries_of self.now) }
    {
        self.rows.len() as u32
    }

    // The row of a number.
    fn row(&self, number: u32) -> &GraphRow
        requires { IsShapeNumber self.now number }
        ensures { IsSomeAnd (slice_get self.now.rows.items number) (λ r. result.now ≡ r) }
    {
        &self.rows[number as usize]
    }

    /// The number of the shape or member with this id; `None` where none has it. No memory.
    pub fn shape(&self, id: &ShapeIdRef<'_>) -> Option<u32>
        ensures { MatchOption result
            (fin.get (maps_of self.now).shapes (printed (id_of id.now)) ≡ None)
            (λ s. Stands self.now s (printed (id_of id.now))) }
    {
        match self.rows.binary_search_by(|row| row.id.compare(id)) {
            Ok(place) => Some(place as u32),
            Err(_) => None,
        }
    }

    /// The id of a shape or member. No memory.
    pub fn id(&self, shape: u32) -> &ShapeId
        requires { IsShapeNumber self.now shape }
        ensures { At self.now shape (λ id e. result.now ≡ id) }
    {
        &self.row(shape).id
    }

    /// Whether the number is that of a member. No memory.
    #[tactic(auto, using(crate::proofs::Entries::member_viewed))]
    pub fn is_member(&self, shape: u32) -> bool
        requires { IsShapeNumber self.now shape }
        ensures { At self.now shape (λ id e. is_member_entry e ≡ result) }
    {
        self.row(shape).entry.is_member()
    }

    /// The type of a shape. No memory.
    pub fn kind(&self, shape: u32) -> Kind
        requires number { IsShapeNumber self.now shape }
        requires is_shape { IsShapeAt self.now shape }
        ensures { At self.now shape (λ id e. HasKind result e) }
    {
        match &self.row(shape).entry {
            RowEntry::Shape(row) => row.kind,
            RowEntry::Member(_) => unreachable!(),
        }
    }

    /// The body of an operation, service or resource; an object without pairs for a shape of any other type. No memory.
    pub fn properties(&self, shape: u32) -> &Tree
        requires number { IsShapeNumber self.now shape }
        requires is_shape { IsShapeAt self.now shape }
        ensures { At self.now shape (λ id e. HasBodyNode (node_of result.now) e) }
    {
        match &self.row(shape).entry {
            RowEntry::Shape(row) => &row.properties,
            RowEntry::Member(_) => unreachable!(),
        }
    }

    /// The id that a member targets. No memory.
    pub fn target_id(&self, member: u32) -> &ShapeId
        requires number { IsShapeNumber self.now member }
        requires is_member { IsMemberAt self.now member }
        ensures { At self.now member (λ id e. Targets result.now e) }
    {
        match &self.row(member).entry {
            RowEntry::Shape(_) => unreachable!(),
            RowEntry::Member(target) => target,
        }
    }

    /// The number of the shape or member that a member targets; `None` where the graph has none of that id. No memory.
    pub fn target(&self, member: u32) -> Option<u32>
        requires number { IsShapeNumber self.now member }
        requires is_member { IsMemberAt self.now member }
        ensures { At self.now member (λ id e. MatchOption result
            (fin.get (maps_of self.now).shapes (target_of e) ≡ None)
            (λ s. Stands self.now s (target_of e))) }
    {
        self.targets[member as usize]
    }

    /// The numbers of the members of a shape, in model order; a member has none. No memory.
    #[tactic(auto, using(crate::proofs::Entries::members_viewed))]
    pub fn members(&self, shape: u32) -> &[u32]
        requires { IsShapeNumber self.now shape }
        ensures ids { At self.now shape (λ id e. HasMembers (map (λ k. get_or (ids self.now) k []) result.now) e) }
        ensures numbers { AreShapeNumbers self.now result.now }
    {
        self.row(shape).entry.members()
    }

    /// The traits of a shape or member, in the order of their ids. No memory.
    pub fn traits(&self, shape: u32) -> &[(Text, Tree)]
        requires { IsShapeNumber self.now shape }
        ensures { At self.now shape (λ id e. fin.entries (traits_in e) ≡ members_view result.now) }
    {
        self.row(shape).traits.as_slice()
    }

    /// The value of a trait of a shape or member, by the trait's id; `None` where it doesn't have the trait. No memory.
    pub fn trait_value(&self, shape: u32, id: &str) -> Option<&Tree>
        requires { IsShapeNumber self.now shape }
        ensures { At self.now shape (λ i e. MatchOption result
            (fin.get (traits_in e) id.now ≡ None)
            (λ t. fin.get (traits_in e) id.now ≡ Some (node_of t.now))) }
    {
        value_under(self.row(shape).traits.as_slice(), id)
    }

    /// The metadata, in the order of its keys. No memory.
    pub fn metadata(&self) -> &[(Text, Tree)]
        ensures { fin.entries (maps_of self.now).metadata ≡ members_view result.now }
    {
        self.metadata.as_slice()
    }
}
