// Bodies by the name of a convention.
ghost use Rattle.std.specs.Prelude.{◌<◌, IfOk};
ghost use Rattle.sm_shapes.specs.Fitting.{Fits, any_text};
ghost use Rattle.sm_shapes.specs.InOrder.{Shaped, AreStored, DefaultsPass};
ghost use Rattle.sm_shapes.specs.Places.{root_place};
ghost use Rattle.sm_shapes.specs.TableData.{shape_count};
ghost use Rattle.sm_shapes.specs.TableView.{table_data};
ghost use Rattle.sm_shapes.specs.ValueView.{val_of};

use crate::by_tree::bytes_by_tree;
use sm_bodies::{BodyForm, BodyRefusal, WrittenBody, body_value, write_body};
use sm_codec::{CborLeaves, JsonLeaves, NodeLeaves};
use sm_shapes::Patterns;
use sm_shapes::tables::Table;
use sm_shapes::values::Value;
use sm_tree::NoMemory;
use std::alloc::Global;

/// A convention of leaves, and with it a format of bodies.
#[derive(Debug, Clone, Copy, Drop)]
pub enum BodyWay {
    /// JSON, by the members' names or by their JSON names.
    Json(bool),
    /// CBOR.
    Cbor,
    /// The nodes of models as JSON, with raw blobs or with base64.
    Node(bool),
}

impl BodyWay {
    /// The convention that a word names: `json`, `json-names`, `cbor`, `node`, `node-raw`. No memory.
    pub fn named(word: &str) -> Option<BodyWay> {
        match word {
            "json" => Some(BodyWay::Json(false)),
            "json-names" => Some(BodyWay::Json(true)),
            "cbor" => Some(BodyWay::Cbor),
            "node" => Some(BodyWay::Node(false)),
            "node-raw" => Some(BodyWay::Node(true)),
            _ => None,
        }
    }

    /// The value of a body, whose bytes come in pieces of at most so many. The store must have the table's patterns.
    ///
    /// # Errors
    ///
    /// Those of `body_value`.
    #[tactic(auto, using(sm_bodies::proofs::BodiesRead::body_fits))]
    pub fn value<P: Patterns>(
        self,
        alloc: Global,
        table: &Table,
        shape: u32,
        patterns: &mut P,
        bytes: &[u8],
        piece: usize,
    ) -> Result<Value, BodyRefusal>
        requires piece { 0 < piece }
        requires number { shape < shape_count (table_data table.now) }
        requires shaped { Shaped (table_data table.now) }
        requires stored { AreStored (table_data table.now).patterns (P.added patterns.old) }
        requires pass { DefaultsPass (table_data table.now) P.test }
        ensures { IfOk result (λ value. Fits (table_data table.now) any_text (root_place shape) (val_of value)) }
    {
        match self {
            BodyWay::Json(json_names) => body_value(
                alloc,
                BodyForm::Json,
                table,
                shape,
                &JsonLeaves { json_names },
                patterns,
                bytes,
                piece,
            ),
            BodyWay::Node(raw_blobs) => body_value(
                alloc,
                BodyForm::Json,
                table,
                shape,
                &NodeLeaves { raw_blobs },
                patterns,
                bytes,
                piece,
            ),
            BodyWay::Cbor => body_value(
                alloc,
                BodyForm::Cbor,
                table,
                shape,
                &CborLeaves,
                patterns,
                bytes,
                piece,
            ),
        }
    }

    /// The body of a value of the shape.
    pub fn body(
        self,
        alloc: Global,
        table: &Table,
        shape: u32,
        value: &Value,
    ) -> Result<WrittenBody, NoMemory>
        requires shaped { Shaped (table_data table.now) }
        requires shape { shape < shape_count (table_data table.now) }
        requires fits { Fits (table_data table.now) any_text (root_place shape) (val_of value.now) }
    {
        sm_codec::laws::json_leaves_written();
        sm_codec::laws::node_leaves_written();
        sm_codec::laws::cbor_leaves_written();
        match self {
            BodyWay::Json(json_names) => {
                let leaves = JsonLeaves { json_names };
                write_body(alloc, BodyForm::Json, table, shape, value, &leaves)
            }
            BodyWay::Node(raw_blobs) => {
                let leaves = NodeLeaves { raw_blobs };
                write_body(alloc, BodyForm::Json, table, shape, value, &leaves)
            }
            BodyWay::Cbor => write_body(alloc, BodyForm::Cbor, table, shape, value, &CborLeaves),
        }
    }

    /// The body of a value of the shape, by a tree that is made first; none where a leaf isn't carried.
    pub fn body_by_tree(
        self,
        alloc: Global,
        table: &Table,
        shape: u32,
        value: &Value,
    ) -> Result<Option<Vec<u8>>, NoMemory>
        requires shaped { Shaped (table_data table.now) }
        requires shape { shape < shape_count (table_data table.now) }
        requires fits { Fits (table_data table.now) any_text (root_place shape) (val_of value.now) }
    {
        sm_codec::laws::json_leaves_written();
        sm_codec::laws::node_leaves_written();
        sm_codec::laws::cbor_leaves_written();
        match self {
            BodyWay::Json(json_names) => {
                let leaves = JsonLeaves { json_names };
                bytes_by_tree(alloc, BodyForm::Json, table, shape, value, &leaves)
            }
            BodyWay::Node(raw_blobs) => {
                let leaves = NodeLeaves { raw_blobs };
                bytes_by_tree(alloc, BodyForm::Json, table, shape, value, &leaves)
            }
            BodyWay::Cbor => bytes_by_tree(alloc, BodyForm::Cbor, table, shape, value, &CborLeaves),
        }
    }
}
