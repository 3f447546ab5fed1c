// Places of values: what stands there, and the places within. Contracts see one as a Place of sm_shapes.
ghost use Rattle.std.specs.Prelude.{◌≡◌, slice_index_or};
ghost use Rattle.sm_shapes.specs.InOrder.{Shaped};
ghost use Rattle.sm_shapes.specs.ConstraintView.{constraint_data};
ghost use Rattle.sm_shapes.specs.Places.{shape_of, kind_of, format_of, constraints_of, entry_place, value_place};
ghost use Rattle.sm_shapes.specs.TableView.{table_data};
ghost use Rattle.sm_codec.specs.Codec.{InTable};
ghost use Rattle.sm_codec.specs.PlaceView.{place_of};
ghost use Rattle.sm_codec.specs.Sorts.{sort_by, sort_of, sort_with, simple_in};

use crate::Simple;
use sm_shapes::constraints::Constraints;
use sm_shapes::kinds::ShapeKind;
use sm_shapes::tables::Table;
use sm_time::Format;

/// Where a value stands: by itself, as one of a shape, or at a member.
#[derive(Debug, Clone, Copy, Drop)]
pub enum ValuePlace {
    /// The number of its shape.
    Root(u32),
    /// The number of the member.
    Member(u32),
}

impl ValuePlace {
    /// The number of the shape of its values. No memory.
    pub fn shape(self, table: &Table) -> u32
        requires { InTable (table_data table.now) (place_of self) }
        ensures { result ≡ shape_of (table_data table.now) (place_of self) }
    {
        match self {
            ValuePlace::Root(shape) => shape,
            ValuePlace::Member(member) => table.target(member),
        }
    }

    /// The format that timestamps have there, if one is given. No memory.
    pub fn format(self, table: &Table) -> Option<Format>
        requires { InTable (table_data table.now) (place_of self) }
        ensures { result ≡ format_of (table_data table.now) (place_of self) }
    {
        match self {
            ValuePlace::Root(shape) => table.shape(shape).format,
            ValuePlace::Member(member) => table.member(member).format,
        }
    }

    /// What kind of values it has. No memory.
    pub fn kind(self, table: &Table) -> ShapeKind
        requires shaped { Shaped (table_data table.now) }
        requires place { InTable (table_data table.now) (place_of self) }
        ensures { result ≡ kind_of (table_data table.now) (place_of self) }
    {
        table.kind(self.shape(table))
    }

    /// What its values must keep: at a member its own constraints. No memory.
    pub fn constraints(self, table: &Table) -> &Constraints
        requires { InTable (table_data table.now) (place_of self) }
        ensures { constraint_data result.now ≡ constraints_of (table_data table.now) (place_of self) }
    {
        match self {
            ValuePlace::Root(shape) => &table.shape(shape).constraints,
            ValuePlace::Member(member) => &table.member(member).constraints,
        }
    }

    /// The simple type of its values in a document, if it is one. No memory.
    pub fn simple(self, table: &Table) -> Option<Simple>
        requires shaped { Shaped (table_data table.now) }
        requires place { InTable (table_data table.now) (place_of self) }
        ensures { result ≡ simple_in (sort_of (table_data table.now) (place_of self)) }
    {
        simple_of(table.kind(self.shape(table)), self.format(table))
    }

    /// The simple type of its values, if it is one, where timestamps usually have this format. No memory.
    pub fn simple_with(self, table: &Table, usual: Format) -> Option<Simple>
        requires shaped { Shaped (table_data table.now) }
        requires place { InTable (table_data table.now) (place_of self) }
        ensures { result ≡ simple_in (sort_with usual (kind_of (table_data table.now) (place_of self))
            (format_of (table_data table.now) (place_of self))) }
    {
        simple_with(usual, table.kind(self.shape(table)), self.format(table))
    }

    /// The place of the entries of a list. No memory.
    pub fn entry(self, table: &Table) -> ValuePlace
        requires shaped { Shaped (table_data table.now) }
        requires place { InTable (table_data table.now) (place_of self) }
        ensures { place_of result ≡ entry_place (table_data table.now) (place_of self) }
    {
        ValuePlace::Member(member_or_first(table.members(self.shape(table)), 0))
    }

    /// The place of the values of a map. No memory.
    pub fn value(self, table: &Table) -> ValuePlace
        requires shaped { Shaped (table_data table.now) }
        requires place { InTable (table_data table.now) (place_of self) }
        ensures { place_of result ≡ value_place (table_data table.now) (place_of self) }
    {
        ValuePlace::Member(member_or_first(table.members(self.shape(table)), 1))
    }
}

// The member at a place of a list of members; where none is there, the first of all members.
fn member_or_first(members: &[u32], at: usize) -> u32
    ensures { result ≡ slice_index_or members.now at 0 }
{
    match members.get(at) {
        Some(member) => *member,
        None => 0,
    }
}

/// The simple type of a kind of shape in a document, if it is one: timestamps without a format are numbers of seconds. No memory.
pub fn simple_of(kind: ShapeKind, format: Option<Format>) -> Option<Simple>
    ensures { result ≡ simple_in (sort_by kind format) }
{
    simple_with(Format::EpochSeconds, kind, format)
}

/// The simple type of a kind of shape, if it is one, where timestamps without a format have the usual one. No memory.
pub fn simple_with(usual: Format, kind: ShapeKind, format: Option<Format>) -> Option<Simple>
    ensures { result ≡ simple_in (sort_with usual kind format) }
{
    match kind {
        ShapeKind::Blob => Some(Simple::Blob),
        ShapeKind::Boolean => Some(Simple::Boolean),
        ShapeKind::Text => Some(Simple::Text),
        ShapeKind::Enum => Some(Simple::Text),
        ShapeKind::Byte => Some(Simple::Number(8)),
        ShapeKind::Short => Some(Simple::Number(16)),
        ShapeKind::Integer => Some(Simple::Number(32)),
        ShapeKind::IntEnum => Some(Simple::Number(32)),
        ShapeKind::Long => Some(Simple::Number(64)),
        ShapeKind::Timestamp => Some(Simple::Time(format.unwrap_or(usual))),
        ShapeKind::List => None,
        ShapeKind::Map => None,
        ShapeKind::Structure => None,
        ShapeKind::Union => None,
        ShapeKind::LeftOut => None,
    }
}
