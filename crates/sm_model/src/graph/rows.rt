// The rows of a graph: what is kept of each shape and of each member.
ghost use Rattle.std.specs.Prelude.{◌≡◌};
ghost use Rattle.sm_model.specs.GraphRows.{is_member_row, members_kept};

use crate::kind::Kind;
use sm_ids::ShapeId;
use sm_tree::{Pairs, Tree};
use std::marker::Model;

/// The numbers of members, in model order. Contracts see the list.
#[derive(Debug, Drop)]
pub struct Numbers {
    numbers: Vec<u32>,
}

impl Model for Numbers {
    ghost use Rattle.std.specs.Prelude.{List, ℕ};

    ghost Value = { List ℕ };

    ghost view = { λ a. a.numbers.items };
}

impl Numbers {
    /// The numbers that a vector holds. No memory.
    pub fn new(numbers: Vec<u32>) -> Self
        ensures { result ≡ numbers.items }
    {
        Numbers { numbers }
    }

    /// The numbers, in order. No memory.
    pub fn as_slice(&self) -> &[u32]
        ensures { result.now ≡ self.now }
    {
        self.numbers.as_slice()
    }
}

/// What is kept of a shape.
#[derive(Debug, Drop)]
pub struct ShapeRow {
    /// Its type.
    pub kind: Kind,
    /// The rows of its members, in model order.
    pub members: Numbers,
    /// The body of an operation, service or resource.
    pub properties: Tree,
}

/// What a row is: a shape, or a member with the id that it targets.
#[derive(Debug, Drop)]
pub enum RowEntry {
    /// A shape.
    Shape(ShapeRow),
    /// A member, by the id that it targets.
    Member(ShapeId),
}

impl RowEntry {
    /// Whether it is a member. No memory.
    pub fn is_member(&self) -> bool
        ensures { result ≡ is_member_row self.now }
    {
        match self {
            RowEntry::Shape(_) => false,
            RowEntry::Member(_) => true,
        }
    }

    /// The rows of a shape's members, in model order; a member has none. No memory.
    pub fn members(&self) -> &[u32]
        ensures { result.now ≡ members_kept self.now }
    {
        match self {
            RowEntry::Shape(row) => row.members.as_slice(),
            RowEntry::Member(_) => &[],
        }
    }
}

/// A row: an id, its traits in the order of their ids, and what it is.
#[derive(Debug, Drop)]
pub struct GraphRow {
    /// The id of the shape or member.
    pub id: ShapeId,
    /// The traits, in the order of their ids.
    pub traits: Pairs,
    /// A shape, or a member.
    pub entry: RowEntry,
}
