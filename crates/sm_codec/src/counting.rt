// How many nodes the values have that a decoder holds, or the greatest `u64` where that is more.
ghost use Rattle.std.specs.Prelude.{◌≡◌, []};
ghost use Rattle.sm_bytes.specs.Lengths.{length_word};
ghost use Rattle.sm_shapes.specs.Values.{val_nodes, vals_nodes, entries_nodes, fields_nodes, vals_of, entries_of, fields_of};
ghost use Rattle.sm_shapes.specs.ValueView.{val_of, vals_view, each_entry_view, each_field_view};
ghost use Rattle.sm_codec.specs.Bound.{frame_nodes, frames_nodes};
ghost use Rattle.sm_codec.specs.MapView.{held_entry, held_entries};
ghost use Rattle.sm_codec.specs.StackView.{frame_of, frames_of, stack_of};

use crate::frames::{Frame, Frames, Key};
use sm_shapes::values::Value;
use sm_tree::Text;
use std::collections::BTreeMap;

// A value, with itself.
#[cycle(nodes)]
pub(crate) fn value_nodes(value: &Value) -> u64
    ensures { result ≡ length_word (val_nodes (val_of value.now)) }
{
    match value {
        Value::Null => 1,
        Value::Bool(_) => 1,
        Value::Int(_) => 1,
        Value::Text(_) => 1,
        Value::Blob(_) => 1,
        Value::Time(_) => 1,
        Value::List(items) => items_nodes(items.as_slice()).saturating_add(1),
        Value::Map(entries) => entries_nodes(entries.as_slice()).saturating_add(1),
        Value::Structure(fields) => fields_nodes(fields.as_slice()).saturating_add(1),
        Value::Union(_, content) => value_nodes(content).saturating_add(1),
    }
}

#[cycle(nodes)]
fn items_nodes(items: &[Value]) -> u64
    ensures { result ≡ length_word (vals_nodes (vals_of (vals_view items.now))) }
{
    let mut count: u64 = 0;
    for item in items {
        count = count.saturating_add(value_nodes(item));
    }
    count
}

#[cycle(nodes)]
fn entries_nodes(entries: &[(Text, Value)]) -> u64
    ensures { result ≡ length_word (entries_nodes (entries_of (each_entry_view entries.now))) }
{
    let mut count: u64 = 0;
    for pair in entries {
        count = count.saturating_add(value_nodes(&pair.1));
    }
    count
}

#[cycle(nodes)]
fn fields_nodes(fields: &[(u32, Value)]) -> u64
    ensures { result ≡ length_word (fields_nodes (fields_of (each_field_view fields.now))) }
{
    let mut count: u64 = 0;
    for part in fields {
        count = count.saturating_add(value_nodes(&part.1));
    }
    count
}

// The values of the keys that have one.
fn keyed_nodes(keys: &BTreeMap<Key, Option<Value>>) -> u64
    ensures { result ≡ length_word (entries_nodes (entries_of (held_entries keys.now.entries))) }
{
    let mut count: u64 = 0;
    for (_key, value) in keys {
        count = count.saturating_add(held_nodes(value));
    }
    count
}

fn held_nodes(value: &Option<Value>) -> u64
    ensures { result ≡ length_word (entries_nodes (entries_of (held_entry [] value.now))) }
{
    match value {
        Some(value) => value_nodes(value),
        None => 0,
    }
}

impl Frame {
    // The values of what is closed in it.
    fn nodes(&self) -> u64
        ensures { result ≡ length_word (frame_nodes (frame_of self.now)) }
    {
        match self {
            Frame::Structure(frame) => fields_nodes(frame.fields.as_slice()),
            Frame::Union(frame) => fields_nodes(frame.fields.as_slice()),
            Frame::List(frame) => items_nodes(frame.items.as_slice()),
            Frame::Map(frame) => keyed_nodes(&frame.keys),
            Frame::Tagged(_, _) => 0,
            Frame::Skip(_, _) => 0,
        }
    }
}

// The values of these frames, the root's first.
fn all_nodes(frames: &[Frame]) -> u64
    ensures { result ≡ length_word (frames_nodes (stack_of frames.now)) }
{
    let mut count: u64 = 0;
    for frame in frames {
        count = count.saturating_add(frame.nodes());
    }
    count
}

impl Frames {
    // The values of all frames.
    pub(crate) fn nodes(&self) -> u64
        ensures { result ≡ length_word (frames_nodes (frames_of self.now)) }
    {
        all_nodes(self.frames.as_slice())
    }
}
