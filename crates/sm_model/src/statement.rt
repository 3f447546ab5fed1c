// Statements: what a model file says, one after the other. Contracts see them as the data of specs/Said.antt.
ghost use Rattle.std.specs.Prelude.{◌≡◌};
ghost use Rattle.sm_model.specs.SaidView.{traits_of, traits_view, member_statements_of, member_statements_view};

use crate::kind::Kind;
use crate::raw::RawNode;
use crate::reference::{Ref, Refs};
use sm_ids::ShapeId;
use sm_tree::Text;

/// A trait with its value, as a file applies it.
#[derive(Debug, Drop)]
pub struct TraitUse {
    /// The trait's id.
    pub id: Ref,
    /// The value.
    pub value: RawNode,
}

/// Traits that a file applies, in order.
#[derive(Debug, Drop)]
pub struct TraitUses {
    uses: Vec<TraitUse>,
}

impl TraitUses {
    /// The traits that a vector holds. No memory.
    pub fn new(uses: Vec<TraitUse>) -> Self
        ensures { traits_of result ≡ traits_view uses.items }
    {
        TraitUses { uses }
    }

    /// The vector. No memory.
    pub fn into_inner(self) -> Vec<TraitUse>
        ensures { traits_view result.items ≡ traits_of self }
    {
        self.uses
    }

    /// The traits, in order. No memory.
    pub fn as_slice(&self) -> &[TraitUse]
        ensures { traits_view result.now ≡ traits_of self.now }
    {
        self.uses.as_slice()
    }
}

/// A member as a file defines it.
#[derive(Debug, Drop)]
pub struct MemberStatement {
    /// The name. A list's member is `member`; a map's are `key` and `value`, in this order.
    pub name: Text,
    /// The shape that its values have.
    pub target: Ref,
    /// The traits.
    pub traits: TraitUses,
}

/// Members that a file defines, in order.
#[derive(Debug, Drop)]
pub struct MemberStatements {
    members: Vec<MemberStatement>,
}

impl MemberStatements {
    /// The members that a vector holds. No memory.
    pub fn new(members: Vec<MemberStatement>) -> Self
        ensures { member_statements_of result ≡ member_statements_view members.items }
    {
        MemberStatements { members }
    }

    /// The vector. No memory.
    pub fn into_inner(self) -> Vec<MemberStatement>
        ensures { member_statements_view result.items ≡ member_statements_of self }
    {
        self.members
    }

    /// The members, in order. No memory.
    pub fn as_slice(&self) -> &[MemberStatement]
        ensures { member_statements_view result.now ≡ member_statements_of self.now }
    {
        self.members.as_slice()
    }
}

/// A shape as a file defines it.
#[derive(Debug, Drop)]
pub struct ShapeStatement {
    /// The shape's id, without a member.
    pub id: ShapeId,
    /// Its type.
    pub kind: Kind,
    /// Its own members, without those of mixins.
    pub members: MemberStatements,
    /// The shapes that it mixes in.
    pub mixins: Refs,
    /// The body of an operation, service or resource; an object without pairs for every other type.
    pub properties: RawNode,
    /// The traits.
    pub traits: TraitUses,
}

/// A statement of a model file.
#[derive(Debug, Drop)]
pub enum Statement {
    /// Metadata: a key with its value.
    Metadata(Text, RawNode),
    /// A shape.
    Shape(ShapeStatement),
    /// Traits that are applied to a shape or member.
    Apply(Ref, TraitUses),
}
