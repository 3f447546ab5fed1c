// A leaf that comes: read at the place that is due, under a tag there or not, or passed over.
ghost use Rattle.std.specs.Prelude.{◌≡◌, None, OnOk};
ghost use Rattle.sm_tree.specs.View.{node_of};
ghost use Rattle.sm_shapes.specs.InOrder.{Shaped, AreStored};
ghost use Rattle.sm_shapes.specs.TableView.{table_data};
ghost use Rattle.sm_codec.specs.Codec.{InTable};
ghost use Rattle.sm_codec.specs.DecodingView.{decoding_of};
ghost use Rattle.sm_codec.specs.PlaceView.{place_of};
ghost use Rattle.sm_codec.specs.steps.DecoderSteps.{due_told, FirstCanTake};
ghost use Rattle.sm_codec.specs.steps.OpeningSteps.{ToldIn, CanRead, LeafTaken, LeafBy};

use super::Decoder;
use crate::Leaves;
use crate::frames::{Due, leaf_arrives};
use crate::places::ValuePlace;
use sm_shapes::Patterns;
use sm_shapes::tables::Table;
use sm_tree::{NoMemory, Tree};
use std::alloc::Global;

impl Decoder {
    // A leaf is read at a place and taken there. The store isn't changed.
    pub(super) fn take_leaf<L: Leaves, P: Patterns>(
        &mut self,
        alloc: Global,
        table: &Table,
        place: ValuePlace,
        leaf: &Tree,
        leaves: &L,
        patterns: &mut P,
    ) -> Result<(), NoMemory>
        requires shaped { Shaped (table_data table.now) }
        requires stored { AreStored (table_data table.now).patterns (P.added patterns.old) }
        requires place { InTable (table_data table.now) (place_of place) }
        requires can { FirstCanTake (table_data table.now) (decoding_of self.old).frames }
        requires none { (decoding_of self.old).result ≡ None }
        ensures taken { OnOk result (LeafTaken (table_data table.now) (L.convention leaves.now) P.test (place_of place)
            (node_of leaf.now) (decoding_of self.old).frames (decoding_of self.new)) }
        ensures shape { (decoding_of self.new).shape ≡ (decoding_of self.old).shape }
        ensures added { P.added patterns.new ≡ P.added patterns.old }
        ensures refused { P.refused patterns.new ≡ P.refused patterns.old }
        ensures refusals { P.refusals patterns.new ≡ P.refusals patterns.old }
    {
        match leaf_arrives(alloc, table, place, leaf, leaves, patterns) {
            Ok(arrival) => self.take(alloc, table, arrival, patterns),
            Err(refusal) => Err(refusal),
        }
    }

    // A leaf comes. The store isn't changed.
    pub(super) fn leaf<L: Leaves, P: Patterns>(
        &mut self,
        alloc: Global,
        table: &Table,
        leaf: Tree,
        leaves: &L,
        patterns: &mut P,
    ) -> Result<(), NoMemory>
        requires shaped { Shaped (table_data table.now) }
        requires stored { AreStored (table_data table.now).patterns (P.added patterns.old) }
        requires due { ToldIn (table_data table.now) (due_told (table_data table.now) (decoding_of self.old).shape
            (decoding_of self.old).frames) }
        requires can { CanRead (table_data table.now) (due_told (table_data table.now) (decoding_of self.old).shape
            (decoding_of self.old).frames) (decoding_of self.old).frames }
        requires none { (decoding_of self.old).result ≡ None }
        ensures read { OnOk result (LeafBy (table_data table.now) (L.convention leaves.now) P.test
            (due_told (table_data table.now) (decoding_of self.old).shape (decoding_of self.old).frames) (node_of leaf)
            (decoding_of self.old).frames (decoding_of self.new)) }
        ensures shape { (decoding_of self.new).shape ≡ (decoding_of self.old).shape }
        ensures added { P.added patterns.new ≡ P.added patterns.old }
        ensures refused { P.refused patterns.new ≡ P.refused patterns.old }
        ensures refusals { P.refusals patterns.new ≡ P.refusals patterns.old }
    {
        match self.frames.due(table, self.shape) {
            Due::At(place) => self.take_leaf(alloc, table, place, &leaf, leaves, patterns),
            Due::Tagged(place, tag) => {
                let tree = Tree::Tag(tag, Box::new(alloc, leaf)?);
                let _tag = self.frames.pop();
                self.take_leaf(alloc, table, place, &tree, leaves, patterns)
            }
            Due::Passed(depth, report) => {
                let _passed = self.frames.pop();
                self.pass(alloc, table, depth, report, patterns)
            }
        }
    }
}
