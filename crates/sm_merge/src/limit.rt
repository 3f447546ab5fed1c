// How large a merged model may be. The prelude doesn't count.

/// The most shapes that aren't members.
pub const SHAPE_LIMIT: u64 = 20_000;

/// The most members of one shape, those of its mixins among them.
pub const MEMBER_LIMIT: u64 = 1_000;

/// The most members in all.
pub const ALL_MEMBER_LIMIT: u64 = 200_000;

/// The most nodes and bytes of values of traits in all.
pub const TRAIT_LIMIT: u64 = 16_000_000;

/// A limit that a merged model is past.
#[derive(Debug, Clone, Copy, PartialEq, Eq, Drop)]
pub enum LimitKind {
    /// More than `SHAPE_LIMIT` shapes that aren't members.
    Shapes,
    /// A shape with more than `MEMBER_LIMIT` members.
    Members,
    /// More than `ALL_MEMBER_LIMIT` members in all.
    AllMembers,
    /// Values of traits of more than `TRAIT_LIMIT` nodes and bytes in all.
    Traits,
}
