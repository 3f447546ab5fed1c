// Values of every kind of shape. Contracts see a value as a Val of specs/Values.antt. The `Value` at the crate's top is of the first
// tables, which know a few kinds alone.
ghost use Rattle.std.specs.Prelude.{◌≡◌};
ghost use Rattle.sm_shapes.specs.ValueView.{items_view, vals_view, entries_view, each_entry_view, fields_view, each_field_view};

use sm_time::Stamp;
use sm_tree::{Bytes, Text};

/// A value of some shape.
#[cycle(any_value)]
#[derive(Debug, Drop)]
pub enum Value {
    /// Null, in a sparse list or map alone.
    Null,
    /// A truth value.
    Bool(bool),
    /// A whole number.
    Int(i64),
    /// A text.
    Text(Text),
    /// Bytes.
    Blob(Bytes),
    /// A moment.
    Time(Stamp),
    /// A value of a list.
    List(Items),
    /// A value of a map.
    Map(Entries),
    /// A value of a structure.
    Structure(Fields),
    /// The number of the one member of a union that is there, and its value.
    Union(u32, Box<Value>),
}

/// The entries of a list, in order.
#[cycle(any_value)]
#[derive(Debug, Drop)]
pub struct Items {
    pub(crate) items: Vec<Value>,
}

/// The entries of a map: its keys with their values, in byte order of the keys, which differ.
#[cycle(any_value)]
#[derive(Debug, Drop)]
pub struct Entries {
    entries: Vec<(Text, Value)>,
}

/// The members of a structure that are present: their numbers with their values, in model order.
#[cycle(any_value)]
#[derive(Debug, Drop)]
pub struct Fields {
    pub(crate) fields: Vec<(u32, Value)>,
}

impl Items {
    /// The entries that a vector holds. No memory.
    pub fn new(items: Vec<Value>) -> Self
        ensures { items_view result ≡ vals_view items.items }
    {
        Items { items }
    }

    /// The vector. No memory.
    pub fn into_inner(self) -> Vec<Value>
        ensures { vals_view result.items ≡ items_view self }
    {
        self.items
    }

    /// The entries, in order. No memory.
    pub fn as_slice(&self) -> &[Value]
        ensures { vals_view result.now ≡ items_view self.now }
    {
        self.items.as_slice()
    }
}

impl Entries {
    /// The entries that a vector holds. No memory.
    pub fn new(entries: Vec<(Text, Value)>) -> Self
        ensures { entries_view result ≡ each_entry_view entries.items }
    {
        Entries { entries }
    }

    /// The vector. No memory.
    pub fn into_inner(self) -> Vec<(Text, Value)>
        ensures { each_entry_view result.items ≡ entries_view self }
    {
        self.entries
    }

    /// The entries, in order. No memory.
    pub fn as_slice(&self) -> &[(Text, Value)]
        ensures { each_entry_view result.now ≡ entries_view self.now }
    {
        self.entries.as_slice()
    }
}

impl Fields {
    /// The fields that a vector holds. No memory.
    pub fn new(fields: Vec<(u32, Value)>) -> Self
        ensures { fields_view result ≡ each_field_view fields.items }
    {
        Fields { fields }
    }

    /// The vector. No memory.
    pub fn into_inner(self) -> Vec<(u32, Value)>
        ensures { each_field_view result.items ≡ fields_view self }
    {
        self.fields
    }

    /// The fields, in order. No memory.
    pub fn as_slice(&self) -> &[(u32, Value)]
        ensures { each_field_view result.now ≡ fields_view self.now }
    {
        self.fields.as_slice()
    }
}
