// A tree that comes whole where the next is due: it is walked there, its lists and objects have frames while they are walked, and what is
// passed over is skipped.
ghost use Rattle.std.specs.Prelude.{◌≡◌, true, OnOk};
ghost use Rattle.sm_tree.specs.Node.{list, object, nodes_of, members_of};
ghost use Rattle.sm_tree.specs.View.{node_of, nodes_view, members_view};
ghost use Rattle.sm_shapes.specs.InOrder.{Shaped, AreStored};
ghost use Rattle.sm_shapes.specs.TableView.{table_data};
ghost use Rattle.sm_codec.specs.Codec.{codec_of, InTable};
ghost use Rattle.sm_codec.specs.Convention.{IsConvention};
ghost use Rattle.sm_codec.specs.DecodingView.{decoding_of};
ghost use Rattle.sm_codec.specs.PlaceView.{place_of};
ghost use Rattle.sm_codec.specs.OpeningView.{Opens};
ghost use Rattle.sm_codec.specs.Sorts.{sort_of};
ghost use Rattle.sm_codec.specs.steps.WalkSteps.{is_list, is_object, next_place, WalkReady, TreeTaken, PairReady, PairTaken};

use super::Decoder;
use crate::Leaves;
use crate::frames::{list_at, object_at};
use crate::places::ValuePlace;
use sm_shapes::Patterns;
use sm_shapes::kinds::ShapeKind;
use sm_shapes::tables::Table;
use sm_tree::{NoMemory, Text, Tree};
use std::alloc::Global;

// Whether a list opens at a place, and an object.
fn is_list(table: &Table, place: ValuePlace) -> bool
    requires shaped { Shaped (table_data table.now) }
    requires place { InTable (table_data table.now) (place_of place) }
    ensures { result ≡ is_list (sort_of (table_data table.now) (place_of place)) }
{
    match place.kind(table) {
        ShapeKind::List => true,
        _ => false,
    }
}

fn is_object(table: &Table, place: ValuePlace) -> bool
    requires shaped { Shaped (table_data table.now) }
    requires place { InTable (table_data table.now) (place_of place) }
    ensures { result ≡ is_object (sort_of (table_data table.now) (place_of place)) }
{
    match place.kind(table) {
        ShapeKind::Map => true,
        ShapeKind::Structure => true,
        ShapeKind::Union => true,
        _ => false,
    }
}

/// A tree at a place, by whether it opens there.
#[derive(Clone, Copy)]
pub(crate) enum Opening<'t> {
    /// A list at a place of lists.
    List(&'t [Tree]),
    /// An object at a place of structures, unions or maps.
    Object(&'t [(Text, Tree)]),
    /// Any other, which is read as a leaf.
    Leaf,
}

fn opens<'t>(table: &Table, place: ValuePlace, tree: &'t Tree) -> Opening<'t>
    requires shaped { Shaped (table_data table.now) }
    requires place { InTable (table_data table.now) (place_of place) }
    ensures { Opens (sort_of (table_data table.now) (place_of place)) (node_of tree.now) result }
{
    match tree {
        Tree::List(items) => {
            if is_list(table, place) {
                Opening::List(items.as_slice())
            } else {
                Opening::Leaf
            }
        }
        Tree::Object(pairs) => {
            if is_object(table, place) {
                Opening::Object(pairs.as_slice())
            } else {
                Opening::Leaf
            }
        }
        Tree::Null => Opening::Leaf,
        Tree::Bool(_) => Opening::Leaf,
        Tree::Int(_) => Opening::Leaf,
        Tree::Number(_) => Opening::Leaf,
        Tree::Text(_) => Opening::Leaf,
        Tree::Bytes(_) => Opening::Leaf,
        Tree::Tag(_, _) => Opening::Leaf,
        Tree::Opaque(_) => Opening::Leaf,
    }
}

impl Decoder {
    // A tree comes at the place that is due. The store isn't changed.
    #[cycle(walk)]
    pub(crate) fn walk<L: Leaves, P: Patterns>(
        &mut self,
        alloc: Global,
        table: &Table,
        tree: &Tree,
        leaves: &L,
        patterns: &mut P,
    ) -> Result<(), NoMemory>
        requires shaped { Shaped (table_data table.now) }
        requires stored { AreStored (table_data table.now).patterns (P.added patterns.old) }
        requires laws { IsConvention (L.convention leaves.now) }
        requires ready { WalkReady (table_data table.now) (decoding_of self.old) }
        ensures taken { OnOk result (TreeTaken (codec_of (table_data table.now) (L.convention leaves.now) P.test) (node_of tree.now)
            (decoding_of self.old) (decoding_of self.new)) }
        ensures shape { (decoding_of self.new).shape ≡ (decoding_of self.old).shape }
        ensures added { P.added patterns.new ≡ P.added patterns.old }
        ensures refused { P.refused patterns.new ≡ P.refused patterns.old }
        ensures refusals { P.refusals patterns.new ≡ P.refusals patterns.old }
    {
        let place = self.frames.place(table, self.shape);
        match opens(table, place, tree) {
            Opening::List(items) => self.walk_list(alloc, table, place, items, leaves, patterns),
            Opening::Object(pairs) => {
                self.walk_object(alloc, table, place, pairs, leaves, patterns)
            }
            Opening::Leaf => self.take_leaf(alloc, table, place, tree, leaves, patterns),
        }
    }

    // A list of these entries comes at a place of lists.
    #[cycle(walk)]
    fn walk_list<L: Leaves, P: Patterns>(
        &mut self,
        alloc: Global,
        table: &Table,
        place: ValuePlace,
        items: &[Tree],
        leaves: &L,
        patterns: &mut P,
    ) -> Result<(), NoMemory>
        requires at { place_of place ≡ next_place (table_data table.now) (decoding_of self.old) }
        requires list { is_list (sort_of (table_data table.now) (next_place (table_data table.now) (decoding_of self.old))) ≡ true }
        requires shaped { Shaped (table_data table.now) }
        requires stored { AreStored (table_data table.now).patterns (P.added patterns.old) }
        requires laws { IsConvention (L.convention leaves.now) }
        requires ready { WalkReady (table_data table.now) (decoding_of self.old) }
        ensures taken { OnOk result (TreeTaken (codec_of (table_data table.now) (L.convention leaves.now) P.test)
            (list (nodes_of (nodes_view items.now))) (decoding_of self.old) (decoding_of self.new)) }
        ensures shape { (decoding_of self.new).shape ≡ (decoding_of self.old).shape }
        ensures added { P.added patterns.new ≡ P.added patterns.old }
        ensures refused { P.refused patterns.new ≡ P.refused patterns.old }
        ensures refusals { P.refusals patterns.new ≡ P.refusals patterns.old }
    {
        match self.frames.push(list_at(alloc, table, place)) {
            Ok(()) => {}
            Err(refusal) => return Err(refusal),
        }
        for item in items {
            match self.walk(alloc, table, item, leaves, patterns) {
                Ok(()) => {}
                Err(refusal) => return Err(refusal),
            }
        }
        self.end(alloc, table, patterns)
    }

    // An object of these pairs comes at a place of structures, unions or maps.
    #[cycle(walk)]
    fn walk_object<L: Leaves, P: Patterns>(
        &mut self,
        alloc: Global,
        table: &Table,
        place: ValuePlace,
        pairs: &[(Text, Tree)],
        leaves: &L,
        patterns: &mut P,
    ) -> Result<(), NoMemory>
        requires object { is_object (sort_of (table_data table.now) (next_place (table_data table.now) (decoding_of self.old))) ≡ true }
        requires at { place_of place ≡ next_place (table_data table.now) (decoding_of self.old) }
        requires shaped { Shaped (table_data table.now) }
        requires stored { AreStored (table_data table.now).patterns (P.added patterns.old) }
        requires laws { IsConvention (L.convention leaves.now) }
        requires ready { WalkReady (table_data table.now) (decoding_of self.old) }
        ensures taken { OnOk result (TreeTaken (codec_of (table_data table.now) (L.convention leaves.now) P.test)
            (object (members_of (members_view pairs.now))) (decoding_of self.old) (decoding_of self.new)) }
        ensures shape { (decoding_of self.new).shape ≡ (decoding_of self.old).shape }
        ensures added { P.added patterns.new ≡ P.added patterns.old }
        ensures refused { P.refused patterns.new ≡ P.refused patterns.old }
        ensures refusals { P.refusals patterns.new ≡ P.refusals patterns.old }
    {
        match self.frames.push(object_at(alloc, table, place)) {
            Ok(()) => {}
            Err(refusal) => return Err(refusal),
        }
        for pair in pairs {
            match self.walk_pair(alloc, table, &pair.0, &pair.1, leaves, patterns) {
                Ok(()) => {}
                Err(refusal) => return Err(refusal),
            }
        }
        self.end(alloc, table, patterns)
    }

    // The next pair of the innermost object comes: a tree under a name of no member is passed over.
    #[cycle(walk)]
    fn walk_pair<L: Leaves, P: Patterns>(
        &mut self,
        alloc: Global,
        table: &Table,
        name: &Text,
        tree: &Tree,
        leaves: &L,
        patterns: &mut P,
    ) -> Result<(), NoMemory>
        requires ready { PairReady (codec_of (table_data table.now) (L.convention leaves.now) P.test) (decoding_of self.old) }
        requires shaped { Shaped (table_data table.now) }
        requires stored { AreStored (table_data table.now).patterns (P.added patterns.old) }
        requires laws { IsConvention (L.convention leaves.now) }
        ensures taken { OnOk result (PairTaken (codec_of (table_data table.now) (L.convention leaves.now) P.test) name.now
            (node_of tree.now) (decoding_of self.old) (decoding_of self.new)) }
        ensures shape { (decoding_of self.new).shape ≡ (decoding_of self.old).shape }
        ensures added { P.added patterns.new ≡ P.added patterns.old }
        ensures refused { P.refused patterns.new ≡ P.refused patterns.old }
        ensures refusals { P.refusals patterns.new ≡ P.refusals patterns.old }
    {
        match self.frames.name_first(alloc, table, name.as_str(), leaves) {
            Ok(known) => {
                if known {
                    self.walk(alloc, table, tree, leaves, patterns)
                } else {
                    Ok(())
                }
            }
            Err(refusal) => Err(refusal),
        }
    }
}
