// The convention of the nodes of models (Smithy 2.0, "Node values").
ghost use Rattle.std.specs.Prelude.{◌≡◌, true, IfOk, IsUtf8};
ghost use Rattle.std.specs.Str.{is_utf8};
ghost use Rattle.sm_tree.specs.Node.{text};
ghost use Rattle.sm_tree.specs.View.{node_of};
ghost use Rattle.sm_shapes.specs.ValueView.{val_of};
ghost use Rattle.sm_codec.specs.Conventions.{node_blob, node_time, node_written_blob, node_carries_leaf};
ghost use Rattle.sm_codec.specs.LeafAnswers.{ReadsLeaf};

use crate::of_type::is_of;
use crate::plain::{
    copy_bytes, read_base64, read_boolean, read_number, read_seconds, read_text, read_time_text,
    write_base64, write_seconds, write_text,
};
use crate::{LeafRefusal, Leaves, Simple};
use sm_shapes::FaultKind;
use sm_shapes::tables::Table;
use sm_shapes::values::Value;
use sm_time::Format;
use sm_tree::{Bytes, NoMemory, Text, Tree};
use std::alloc::Global;

/// The convention of the nodes of models: timestamps are numbers of seconds, or texts of `date-time`.
#[derive(Debug, Clone, Copy, PartialEq, Eq, Drop)]
pub struct NodeLeaves {
    /// Whether blobs are texts of their bytes in UTF-8, and not base64.
    pub raw_blobs: bool,
}

fn read_raw(alloc: Global, leaf: &Tree) -> Result<Value, LeafRefusal>
    ensures { ReadsLeaf (node_blob true (node_of leaf.now)) result }
{
    match leaf {
        Tree::Text(text) => match copy_bytes(alloc, text.as_str().as_bytes()) {
            Ok(copy) => Ok(Value::Blob(copy)),
            Err(NoMemory) => Err(LeafRefusal::NoMemory),
        },
        _ => Err(LeafRefusal::Fault(FaultKind::WrongType)),
    }
}

fn read_blob(alloc: Global, raw_blobs: bool, leaf: &Tree) -> Result<Value, LeafRefusal>
    ensures { ReadsLeaf (node_blob raw_blobs (node_of leaf.now)) result }
{
    if raw_blobs {
        read_raw(alloc, leaf)
    } else {
        read_base64(alloc, leaf)
    }
}

fn read_time(leaf: &Tree) -> Result<Value, LeafRefusal>
    ensures { ReadsLeaf (node_time (node_of leaf.now)) result }
{
    match leaf {
        Tree::Text(_) => read_time_text(Format::DateTime, leaf),
        _ => read_seconds(leaf),
    }
}

// Bytes as a text. The caller must know that they are one.
fn write_raw(alloc: Global, bytes: &Bytes) -> Result<Tree, NoMemory>
    requires { IsUtf8 bytes.now }
    ensures { IfOk result (λ tree. node_of tree ≡ text bytes.now) }
{
    match str::from_utf8(bytes.as_slice()) {
        Ok(text) => match Text::copy(alloc, text) {
            Ok(copy) => Ok(Tree::Text(copy)),
            Err(refusal) => Err(refusal),
        },
        Err(_) => unreachable!(),
    }
}

fn write_blob(alloc: Global, raw_blobs: bool, bytes: &Bytes) -> Result<Tree, NoMemory>
    requires { raw_blobs ≡ true → IsUtf8 bytes.now }
    ensures { IfOk result (λ tree. node_of tree ≡ node_written_blob raw_blobs bytes.now) }
{
    if raw_blobs {
        write_raw(alloc, bytes)
    } else {
        write_base64(alloc, bytes)
    }
}

// Whether bytes are a text in UTF-8.
fn is_text(bytes: &[u8]) -> bool
    ensures { result ≡ is_utf8 bytes.now }
{
    match str::from_utf8(bytes) {
        Ok(_) => true,
        Err(_) => false,
    }
}

// Of a value of the simple type: bytes may be no text.
fn carries_leaf(raw_blobs: bool, value: &Value) -> bool
    ensures { result ≡ node_carries_leaf raw_blobs (val_of value.now) }
{
    if !raw_blobs {
        return true;
    }
    match value {
        Value::Blob(bytes) => is_text(bytes.as_slice()),
        _ => true,
    }
}

impl Leaves for NodeLeaves {
    ghost use Rattle.sm_codec.specs.Conventions.{node_convention};

    ghost convention = { λ leaves. node_convention leaves.raw_blobs };

    fn wire_name<'t>(&self, table: &'t Table, _shape: u32, member: u32) -> &'t str {
        table.name(member)
    }

    fn member_named(&self, table: &Table, shape: u32, name: &str) -> Option<u32> {
        table.member_named(shape, name)
    }

    fn read(&self, alloc: Global, simple: Simple, leaf: &Tree) -> Result<Value, LeafRefusal> {
        match simple {
            Simple::Blob => read_blob(alloc, self.raw_blobs, leaf),
            Simple::Boolean => read_boolean(leaf),
            Simple::Text => read_text(alloc, leaf),
            Simple::Number(bits) => read_number(bits, leaf),
            Simple::Time(_) => read_time(leaf),
        }
    }

    fn carries(&self, simple: Simple, value: &Value) -> bool {
        is_of(simple, value) && carries_leaf(self.raw_blobs, value)
    }

    fn write(&self, alloc: Global, _simple: Simple, value: &Value) -> Result<Tree, NoMemory> {
        match value {
            Value::Bool(truth) => Ok(Tree::Bool(*truth)),
            Value::Int(number) => Ok(Tree::Int(*number)),
            Value::Text(text) => write_text(alloc, text),
            Value::Blob(bytes) => write_blob(alloc, self.raw_blobs, bytes),
            Value::Time(stamp) => write_seconds(alloc, *stamp),
            _ => Ok(Tree::Null),
        }
    }

    fn laws(&self) {}
}
