// What a graph is made from: shapes with their members, in any order. Contracts see them as the data of specs/Graphs.antt.
ghost use Rattle.std.specs.Prelude.{◌≡◌};
ghost use Rattle.sm_model.specs.GivenView.{members_given_of, members_given_view};

use crate::kind::Kind;
use sm_ids::ShapeId;
use sm_tree::{Pairs, Text, Tree};

/// A member of a shape that a graph is made from.
#[derive(Debug, Drop)]
pub struct GraphMember {
    /// The name. A list's member is `member`; a map's are `key` and `value`, in this order.
    pub name: Text,
    /// The id of the shape that its values have. The graph may have none of that id.
    pub target: ShapeId,
    /// The values of its traits by the traits' ids, in any order.
    pub traits: Pairs,
}

/// Members of a shape that a graph is made from, in model order.
#[derive(Debug, Drop)]
pub struct GraphMembers {
    members: Vec<GraphMember>,
}

impl GraphMembers {
    /// The members that a vector holds. No memory.
    pub fn new(members: Vec<GraphMember>) -> Self
        ensures { members_given_of result ≡ members_given_view members.items }
    {
        GraphMembers { members }
    }

    /// The vector. No memory.
    pub fn into_inner(self) -> Vec<GraphMember>
        ensures { members_given_view result.items ≡ members_given_of self }
    {
        self.members
    }

    /// The members, in order. No memory.
    pub fn as_slice(&self) -> &[GraphMember]
        ensures { members_given_view result.now ≡ members_given_of self.now }
    {
        self.members.as_slice()
    }
}

/// A shape that a graph is made from.
#[derive(Debug, Drop)]
pub struct GraphShape {
    /// The shape's id, without a member.
    pub id: ShapeId,
    /// Its type.
    pub kind: Kind,
    /// Its members, those of mixins too.
    pub members: GraphMembers,
    /// The body of an operation, service or resource; an object without pairs for every other type.
    pub properties: Tree,
    /// The values of its traits by the traits' ids, in any order.
    pub traits: Pairs,
}
