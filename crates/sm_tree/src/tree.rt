// Trees: what a JSON text or a CBOR item says. Contracts see a tree as a node of specs/Node.antt.
ghost use Rattle.std.specs.Prelude.{◌≡◌};
ghost use Rattle.sm_tree.specs.View.{items_view, pairs_view, nodes_view, members_view};

use crate::text::{Bytes, Text};

/// What a JSON text (RFC 8259) or a CBOR item (RFC 8949) says.
#[cycle(tree)]
#[derive(PartialEq, Eq, Debug, Drop)]
pub enum Tree {
    /// `null`.
    Null,
    /// `true` or `false`.
    Bool(bool),
    /// An integer that an `i64` holds.
    Int(i64),
    /// The text of a JSON number that is no `Int`: it has a fraction or an exponent, or is out of range. In CBOR an
    /// integer out of range, in decimal.
    Number(Text),
    /// A text.
    Text(Text),
    /// A byte string, in CBOR alone.
    Bytes(Bytes),
    /// A tag's number and its content, in CBOR alone.
    Tag(u64, Box<Tree>),
    /// The first byte of a float or of a simple value, in CBOR alone.
    Opaque(u8),
    /// An array.
    List(Items),
    /// An object of JSON or a map of CBOR: names with their trees, in order. Names may repeat.
    Object(Pairs),
}

/// The trees of an array, in order.
#[cycle(tree)]
#[derive(PartialEq, Eq, Debug)]
pub struct Items {
    items: Vec<Tree>,
}

impl Items {
    /// The trees that a vector holds. No memory.
    pub fn new(items: Vec<Tree>) -> Self
        ensures { items_view result ≡ nodes_view items.items }
    {
        Items { items }
    }

    /// The vector, which keeps its memory.
    pub fn into_inner(self) -> Vec<Tree>
        ensures { nodes_view result.items ≡ items_view self }
    {
        let Self { items } = self;
        items
    }

    /// The trees, in order. No memory.
    pub fn as_slice(&self) -> &[Tree]
        ensures { nodes_view result.now ≡ items_view self.now }
    {
        self.items.as_slice()
    }
}

/// The names of an object with their trees, in order.
#[cycle(tree)]
#[derive(PartialEq, Eq, Debug)]
pub struct Pairs {
    pairs: Vec<(Text, Tree)>,
}

impl Pairs {
    /// The pairs that a vector holds. No memory.
    pub fn new(pairs: Vec<(Text, Tree)>) -> Self
        ensures { pairs_view result ≡ members_view pairs.items }
    {
        Pairs { pairs }
    }

    /// The vector, which keeps its memory.
    pub fn into_inner(self) -> Vec<(Text, Tree)>
        ensures { members_view result.items ≡ pairs_view self }
    {
        let Self { pairs } = self;
        pairs
    }

    /// The pairs, in order. No memory.
    pub fn as_slice(&self) -> &[(Text, Tree)]
        ensures { members_view result.now ≡ pairs_view self.now }
    {
        self.pairs.as_slice()
    }
}

// The last entry and the last pair are dropped first, and then the others in order. No clause says so, and no answer depends
// on it. It is for the allocator: glibc's, as measured (docs/PERFORMANCE.md), then keeps more of the pages for the next tree.

impl Drop for Items {
    #[cycle(tree)]
    fn drop(self) {
        let Items { mut items } = self;
        if let Some(last) = items.pop() {
            drop(last);
        }
    }
}

impl Drop for Pairs {
    #[cycle(tree)]
    fn drop(self) {
        let Pairs { mut pairs } = self;
        if let Some((name, tree)) = pairs.pop() {
            drop(tree);
            drop(name);
        }
    }
}
