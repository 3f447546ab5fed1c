// Nodes of a file whose bare ids aren't resolved yet. Contracts see one as a Raw of specs/Raw.antt.
ghost use Rattle.std.specs.Prelude.{◌≡◌};
ghost use Rattle.sm_model.specs.RawView.{raw_items_view, raw_pairs_view, raws_view, raw_members_view};

use crate::reference::Ref;
use sm_tree::{Text, Tree};

/// A node whose bare ids are still references.
#[cycle(raw)]
#[derive(Debug, Drop)]
pub enum RawNode {
    /// A tree that is no list and no object.
    Leaf(Tree),
    /// A bare id, which comes to the text of the id that it means.
    Id(Ref),
    /// A list.
    List(RawItems),
    /// An object: names with their nodes, in order.
    Object(RawPairs),
}

/// The entries of a list, in order.
#[cycle(raw)]
#[derive(Debug, Drop)]
pub struct RawItems {
    items: Vec<RawNode>,
}

impl RawItems {
    /// The entries that a vector holds. No memory.
    pub fn new(items: Vec<RawNode>) -> Self
        ensures { raw_items_view result ≡ raws_view items.items }
    {
        RawItems { items }
    }

    /// The vector. No memory.
    pub fn into_inner(self) -> Vec<RawNode>
        ensures { raws_view result.items ≡ raw_items_view self }
    {
        self.items
    }

    /// The entries, in order. No memory.
    pub fn as_slice(&self) -> &[RawNode]
        ensures { raws_view result.now ≡ raw_items_view self.now }
    {
        self.items.as_slice()
    }
}

/// The names of an object with their nodes, in order.
#[cycle(raw)]
#[derive(Debug, Drop)]
pub struct RawPairs {
    pairs: Vec<(Text, RawNode)>,
}

impl RawPairs {
    /// The pairs that a vector holds. No memory.
    pub fn new(pairs: Vec<(Text, RawNode)>) -> Self
        ensures { raw_pairs_view result ≡ raw_members_view pairs.items }
    {
        RawPairs { pairs }
    }

    /// The vector. No memory.
    pub fn into_inner(self) -> Vec<(Text, RawNode)>
        ensures { raw_members_view result.items ≡ raw_pairs_view self }
    {
        self.pairs
    }

    /// The pairs, in order. No memory.
    pub fn as_slice(&self) -> &[(Text, RawNode)]
        ensures { raw_members_view result.now ≡ raw_pairs_view self.now }
    {
        self.pairs.as_slice()
    }
}
