// Links: a relation leads from one shape or member to another.
use crate::relation::Relation;

/// A relation between two shapes or members of a graph, by their numbers.
#[derive(Debug, Clone, Copy, PartialEq, Eq, Drop)]
pub struct Link {
    /// The relation.
    pub relation: Relation,
    /// From this one.
    pub from: u32,
    /// To this one.
    pub to: u32,
}
