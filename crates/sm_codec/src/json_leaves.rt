// The convention of JSON (RFC 8259; the AWS JSON protocols; Smithy 2.0, "timestampFormat trait" and "jsonName trait").
ghost use Rattle.std.specs.Prelude.{◌≡◌, true, IfOk};
ghost use Rattle.sm_tree.specs.View.{node_of};
ghost use Rattle.sm_shapes.specs.ValueView.{val_of};
ghost use Rattle.sm_codec.specs.Conventions.{json_time, json_written_time, json_carries_leaf, has_text};
ghost use Rattle.sm_codec.specs.LeafAnswers.{ReadsLeaf};

use crate::of_type::{format_of, is_of};
use crate::plain::{
    has_text, read_base64, read_boolean, read_number, read_seconds, read_text, read_time_text,
    write_base64, write_seconds, write_text, write_time_text,
};
use crate::{LeafRefusal, Leaves, Simple};
use sm_shapes::tables::Table;
use sm_shapes::values::Value;
use sm_time::{Format, Stamp};
use sm_tree::{NoMemory, Tree};
use std::alloc::Global;

/// The convention of JSON: blobs are texts in strict base64 with padding; timestamps are texts of their format, and numbers of seconds in
/// `epoch-seconds`.
#[derive(Debug, Clone, Copy, PartialEq, Eq, Drop)]
pub struct JsonLeaves {
    /// Whether members stand under their JSON names, where they have one.
    pub json_names: bool,
}

// A stamp, as the format says.
fn read_time(format: Format, leaf: &Tree) -> Result<Value, LeafRefusal>
    ensures { ReadsLeaf (json_time format (node_of leaf.now)) result }
{
    match format {
        Format::EpochSeconds => read_seconds(leaf),
        Format::DateTime => read_time_text(Format::DateTime, leaf),
        Format::HttpDate => read_time_text(Format::HttpDate, leaf),
    }
}

fn write_time(alloc: Global, format: Format, stamp: Stamp) -> Result<Tree, NoMemory>
    requires { has_text format stamp ≡ true }
    ensures { IfOk result (λ tree. node_of tree ≡ json_written_time format stamp) }
{
    match format {
        Format::EpochSeconds => write_seconds(alloc, stamp),
        Format::DateTime => write_time_text(alloc, Format::DateTime, stamp),
        Format::HttpDate => write_time_text(alloc, Format::HttpDate, stamp),
    }
}

// Of a value of the simple type: a stamp may have no text of its format.
fn carries_leaf(simple: Simple, value: &Value) -> bool
    ensures { result ≡ json_carries_leaf simple (val_of value.now) }
{
    match value {
        Value::Time(stamp) => match simple {
            Simple::Time(format) => has_text(format, *stamp),
            _ => true,
        },
        _ => true,
    }
}

impl Leaves for JsonLeaves {
    ghost use Rattle.sm_codec.specs.Conventions.{json_convention};

    ghost convention = { λ leaves. json_convention leaves.json_names };

    fn wire_name<'t>(&self, table: &'t Table, _shape: u32, member: u32) -> &'t str {
        if self.json_names {
            table.json_name(member)
        } else {
            table.name(member)
        }
    }

    fn member_named(&self, table: &Table, shape: u32, name: &str) -> Option<u32> {
        match self.json_names {
            true => table.member_json_named(shape, name),
            false => table.member_named(shape, name),
        }
    }

    fn read(&self, alloc: Global, simple: Simple, leaf: &Tree) -> Result<Value, LeafRefusal> {
        match simple {
            Simple::Blob => read_base64(alloc, leaf),
            Simple::Boolean => read_boolean(leaf),
            Simple::Text => read_text(alloc, leaf),
            Simple::Number(bits) => read_number(bits, leaf),
            Simple::Time(format) => read_time(format, leaf),
        }
    }

    fn carries(&self, simple: Simple, value: &Value) -> bool {
        is_of(simple, value) && carries_leaf(simple, value)
    }

    fn write(&self, alloc: Global, simple: Simple, value: &Value) -> Result<Tree, NoMemory> {
        match value {
            Value::Bool(truth) => Ok(Tree::Bool(*truth)),
            Value::Int(number) => Ok(Tree::Int(*number)),
            Value::Text(text) => write_text(alloc, text),
            Value::Blob(bytes) => write_base64(alloc, bytes),
            Value::Time(stamp) => write_time(alloc, format_of(simple), *stamp),
            _ => Ok(Tree::Null),
        }
    }

    fn laws(&self) {}
}
