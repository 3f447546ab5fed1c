// The convention of CBOR (RFC 8949; Smithy RPC v2 CBOR).
ghost use Rattle.std.specs.Prelude.{◌≡◌, true};
ghost use Rattle.sm_tree.specs.View.{node_of};
ghost use Rattle.sm_shapes.specs.ValueView.{val_of};
ghost use Rattle.sm_codec.specs.Conventions.{cbor_blob, cbor_carries_leaf};
ghost use Rattle.sm_codec.specs.LeafAnswers.{ReadsLeaf};

use crate::of_type::is_of;
use crate::plain::{
    copy_bytes, is_whole_second, read_boolean, read_number, read_tagged_seconds, read_text,
    write_text,
};
use crate::{LeafRefusal, Leaves, Simple};
use sm_shapes::FaultKind;
use sm_shapes::tables::Table;
use sm_shapes::values::Value;
use sm_tree::{NoMemory, Tree};
use std::alloc::Global;

/// The convention of CBOR: blobs are byte strings; timestamps are whole seconds under the tag 1, whatever their format says.
#[derive(Debug, Clone, Copy, PartialEq, Eq, Drop)]
pub struct CborLeaves;

fn read_blob(alloc: Global, leaf: &Tree) -> Result<Value, LeafRefusal>
    ensures { ReadsLeaf (cbor_blob (node_of leaf.now)) result }
{
    match leaf {
        Tree::Bytes(bytes) => match copy_bytes(alloc, bytes.as_slice()) {
            Ok(copy) => Ok(Value::Blob(copy)),
            Err(NoMemory) => Err(LeafRefusal::NoMemory),
        },
        _ => Err(LeafRefusal::Fault(FaultKind::WrongType)),
    }
}

// Of a value of the simple type: a stamp may lie between two seconds.
fn carries_leaf(value: &Value) -> bool
    ensures { result ≡ cbor_carries_leaf (val_of value.now) }
{
    match value {
        Value::Time(stamp) => is_whole_second(*stamp),
        _ => true,
    }
}

impl Leaves for CborLeaves {
    ghost use Rattle.sm_codec.specs.Conventions.{cbor_convention};

    ghost convention = { λ leaves. cbor_convention };

    fn wire_name<'t>(&self, table: &'t Table, _shape: u32, member: u32) -> &'t str {
        table.name(member)
    }

    fn member_named(&self, table: &Table, shape: u32, name: &str) -> Option<u32> {
        table.member_named(shape, name)
    }

    fn read(&self, alloc: Global, simple: Simple, leaf: &Tree) -> Result<Value, LeafRefusal> {
        match simple {
            Simple::Blob => read_blob(alloc, leaf),
            Simple::Boolean => read_boolean(leaf),
            Simple::Text => read_text(alloc, leaf),
            Simple::Number(bits) => read_number(bits, leaf),
            Simple::Time(_) => read_tagged_seconds(leaf),
        }
    }

    fn carries(&self, simple: Simple, value: &Value) -> bool {
        is_of(simple, value) && carries_leaf(value)
    }

    fn write(&self, alloc: Global, _simple: Simple, value: &Value) -> Result<Tree, NoMemory> {
        match value {
            Value::Bool(truth) => Ok(Tree::Bool(*truth)),
            Value::Int(number) => Ok(Tree::Int(*number)),
            Value::Text(text) => write_text(alloc, text),
            Value::Blob(bytes) => match copy_bytes(alloc, bytes.as_slice()) {
                Ok(copy) => Ok(Tree::Bytes(copy)),
                Err(refusal) => Err(refusal),
            },
            Value::Time(stamp) => match Box::new(alloc, Tree::Int(stamp.milliseconds() / 1000)) {
                Ok(seconds) => Ok(Tree::Tag(1, seconds)),
                Err(_) => Err(NoMemory),
            },
            _ => Ok(Tree::Null),
        }
    }

    fn laws(&self) {}
}
