// Tables of shapes and members by number. Contracts see a table as the TableData of specs/TableData.antt.
ghost use Rattle.std.specs.Prelude.{◌≡◌, ◌<◌, Some, map, slice_get, if◌then◌else◌};
ghost use Rattle.sm_shapes.specs.InOrder.{Shaped, most_defaults, defaults_among};
ghost use Rattle.sm_shapes.specs.TableData.{shape_count, member_count, kind_at, members_at, by_name_at, by_json_name_at, needed_at};
ghost use Rattle.sm_shapes.specs.TableData.{name_at, json_name_at, target_at, required_at, default_at, count_of_default, member_with};
ghost use Rattle.sm_shapes.specs.TableData.{unit_at, shape_media_type_at, media_type_at};
ghost use Rattle.sm_shapes.specs.TableView.{shape_data, member_data, shape_rows, member_rows, table_data};
ghost use Rattle.sm_shapes.specs.BindingPuts.{bindings_view, with_bindings, table_with_bindings};
ghost use Rattle.sm_shapes.specs.DefaultPuts.{defaults_view, with_defaults, table_with_defaults};

use crate::MemberNumbers;
use crate::constraints::Constraints;
use crate::kinds::ShapeKind;
use crate::values::Value;
use sm_time::Format;
use sm_tree::{Text, Tree};

/// Where HTTP carries a member (Smithy 2.0, "HTTP binding traits").
#[derive(Debug, Drop)]
pub enum Binding {
    /// In the target, at the label of its name.
    Label,
    /// In the query, under this key.
    Query(Text),
    /// The keys of the query that nothing else binds.
    QueryParams,
    /// In the header of this name.
    Header(Text),
    /// The headers whose names begin with this.
    PrefixHeaders(Text),
    /// The body.
    Payload,
    /// The status.
    ResponseCode,
}

/// A shape.
#[derive(Debug, Drop)]
pub struct TableShape {
    /// What kind of values it has.
    pub kind: ShapeKind,
    /// The numbers of its members, in model order: a list has one, a map its key and its value.
    pub members: MemberNumbers,
    /// The numbers of its members, in the byte order of their names.
    pub by_name: MemberNumbers,
    /// The numbers of its members, in the byte order of the names that they have where JSON names are looked at.
    pub by_json_name: MemberNumbers,
    /// The numbers of the members that are required, or have a default or the node of one, in model order.
    pub needed: MemberNumbers,
    /// What its values must keep.
    pub constraints: Constraints,
    /// Whether the entries of a list differ from each other.
    pub unique: bool,
    /// Whether null may stand in a list or a map.
    pub sparse: bool,
    /// Whether it is the prelude's `Unit`.
    pub unit: bool,
    /// The format of a timestamp.
    pub format: Option<Format>,
    /// The media type of a string or a blob.
    pub media_type: Option<Text>,
}

/// A member of a shape. A trait of its own takes the place of its target's.
#[derive(Debug, Drop)]
pub struct TableMember {
    /// The number of the shape that it stands in.
    pub shape: u32,
    /// Its name.
    pub name: Text,
    /// The name that stands in JSON in its place, where a protocol looks at it.
    pub json_name: Option<Text>,
    /// The number of the shape of its values.
    pub target: u32,
    /// Whether a value of its shape must have it.
    pub required: bool,
    /// What its values must keep.
    pub constraints: Constraints,
    /// The format of a timestamp.
    pub format: Option<Format>,
    /// The media type of a string or a blob.
    pub media_type: Option<Text>,
    /// Where HTTP carries it, if not in the document.
    pub binding: Option<Binding>,
    /// The node of its default, where all that needs no reader holds of it.
    pub default_node: Option<Tree>,
    /// Its default, where it counts.
    pub default: Option<Value>,
}

/// The shapes of a table, by their numbers.
#[derive(Debug, Drop)]
pub struct ShapeRows {
    rows: Vec<TableShape>,
}

impl ShapeRows {
    /// The shapes that a vector holds. No memory.
    pub fn new(rows: Vec<TableShape>) -> Self
        ensures { shape_rows result ≡ map shape_data rows.items }
    {
        ShapeRows { rows }
    }

    /// The vector. No memory.
    pub fn into_inner(self) -> Vec<TableShape>
        ensures { map shape_data result.items ≡ shape_rows self }
    {
        self.rows
    }

    /// The shapes, in order. No memory.
    pub fn as_slice(&self) -> &[TableShape]
        ensures { map shape_data result.now ≡ shape_rows self.now }
    {
        self.rows.as_slice()
    }
}

/// The members of a table, by their numbers.
#[derive(Debug, Drop)]
pub struct MemberRows {
    rows: Vec<TableMember>,
}

impl MemberRows {
    /// The members that a vector holds. No memory.
    pub fn new(rows: Vec<TableMember>) -> Self
        ensures { member_rows result ≡ map member_data rows.items }
    {
        MemberRows { rows }
    }

    /// The vector. No memory.
    pub fn into_inner(self) -> Vec<TableMember>
        ensures { map member_data result.items ≡ member_rows self }
    {
        self.rows
    }

    /// The members, in order. No memory.
    pub fn as_slice(&self) -> &[TableMember]
        ensures { map member_data result.now ≡ member_rows self.now }
    {
        self.rows.as_slice()
    }

    // Puts each default at the member of its place.
    fn set_defaults(&mut self, defaults: Vec<Option<Value>>)
        ensures { member_rows self.new ≡ with_defaults (member_rows self.old) (defaults_view defaults.items) }
    {
        let mut others = defaults.into_iter();
        for row in self.rows.iter_mut() {
            match others.next() {
                Some(default) => row.default = default,
                None => return,
            }
        }
    }

    // Puts each binding at the member of its place.
    fn set_bindings(&mut self, bindings: Vec<Option<Binding>>)
        ensures { member_rows self.new ≡ with_bindings (member_rows self.old) (bindings_view bindings.items) }
    {
        let mut others = bindings.into_iter();
        for row in self.rows.iter_mut() {
            match others.next() {
                Some(binding) => row.binding = binding,
                None => return,
            }
        }
    }
}

/// Patterns by their numbers in a store.
#[derive(Debug, Drop)]
pub struct PatternRows {
    rows: Vec<(u32, Text)>,
}

impl std::marker::Model for PatternRows {
    ghost use Rattle.std.specs.Prelude.{List, ℕ};

    ghost Value = { List (ℕ × List ℕ) };

    ghost view = { λ a. a.rows.items };
}

impl PatternRows {
    /// The patterns that a vector holds. No memory.
    pub fn new(rows: Vec<(u32, Text)>) -> Self
        ensures { result ≡ rows.items }
    {
        PatternRows { rows }
    }

    /// The vector. No memory.
    pub fn into_inner(self) -> Vec<(u32, Text)>
        ensures { result.items ≡ self }
    {
        self.rows
    }

    /// The patterns, in order. No memory.
    pub fn as_slice(&self) -> &[(u32, Text)]
        ensures { result.now ≡ self.now }
    {
        self.rows.as_slice()
    }
}

/// Shapes and members, each named by its place, from 0.
#[derive(Debug, Drop)]
pub struct Table {
    /// The shapes.
    pub shapes: ShapeRows,
    /// The members of all shapes. A member's number is one number in the whole table.
    pub members: MemberRows,
    /// The numbers and the texts of the patterns that the constraints name.
    pub patterns: PatternRows,
}

impl Table {
    /// The shape with this number. No memory.
    pub fn shape(&self, shape: u32) -> &TableShape
        requires { shape < shape_count (table_data self.now) }
        ensures { slice_get (table_data self.now).shapes shape ≡ Some (shape_data result.now) }
    {
        &self.shapes.rows[shape as usize]
    }

    /// The member with this number. No memory.
    pub fn member(&self, member: u32) -> &TableMember
        requires { member < member_count (table_data self.now) }
        ensures { slice_get (table_data self.now).members member ≡ Some (member_data result.now) }
    {
        &self.members.rows[member as usize]
    }

    /// What kind of values a shape has. No memory.
    pub fn kind(&self, shape: u32) -> ShapeKind
        requires { shape < shape_count (table_data self.now) }
        ensures { result ≡ kind_at (table_data self.now) shape }
    {
        self.shape(shape).kind
    }

    /// The numbers of a shape's members, in model order. No memory.
    pub fn members(&self, shape: u32) -> &[u32]
        requires { shape < shape_count (table_data self.now) }
        ensures { result.now ≡ members_at (table_data self.now) shape }
    {
        self.shape(shape).members.as_slice()
    }

    /// The numbers of a shape's members, in the byte order of their names. No memory.
    pub fn by_name(&self, shape: u32) -> &[u32]
        requires { shape < shape_count (table_data self.now) }
        ensures { result.now ≡ by_name_at (table_data self.now) shape }
    {
        self.shape(shape).by_name.as_slice()
    }

    /// The numbers of a shape's members, in the byte order of the names that they have where JSON names are looked at. No memory.
    pub fn by_json_name(&self, shape: u32) -> &[u32]
        requires { shape < shape_count (table_data self.now) }
        ensures { result.now ≡ by_json_name_at (table_data self.now) shape }
    {
        self.shape(shape).by_json_name.as_slice()
    }

    /// The numbers of the members of a shape that are required, or have a default or the node of one, in model order. No memory.
    pub fn needed(&self, shape: u32) -> &[u32]
        requires { shape < shape_count (table_data self.now) }
        ensures { result.now ≡ needed_at (table_data self.now) shape }
    {
        self.shape(shape).needed.as_slice()
    }

    /// The name of a member. No memory.
    pub fn name(&self, member: u32) -> &str
        requires { member < member_count (table_data self.now) }
        ensures { result.now ≡ name_at (table_data self.now) member }
    {
        self.member(member).name.as_str()
    }

    /// The name of a member where JSON names are looked at: its JSON name, else its name. No memory.
    pub fn json_name(&self, member: u32) -> &str
        requires { member < member_count (table_data self.now) }
        ensures { result.now ≡ json_name_at (table_data self.now) member }
    {
        let row = self.member(member);
        match &row.json_name {
            Some(name) => name.as_str(),
            None => row.name.as_str(),
        }
    }

    /// The number of the shape of a member's values. No memory.
    pub fn target(&self, member: u32) -> u32
        requires { member < member_count (table_data self.now) }
        ensures { result ≡ target_at (table_data self.now) member }
    {
        self.member(member).target
    }

    /// Whether a shape is the prelude's `Unit`. No memory.
    pub fn is_unit(&self, shape: u32) -> bool
        requires { shape < shape_count (table_data self.now) }
        ensures { result ≡ unit_at (table_data self.now) shape }
    {
        self.shape(shape).unit
    }

    /// The media type of a shape, where it has one. No memory.
    pub fn shape_media_type(&self, shape: u32) -> &Option<Text>
        requires { shape < shape_count (table_data self.now) }
        ensures { result.now ≡ shape_media_type_at (table_data self.now) shape }
    {
        &self.shape(shape).media_type
    }

    /// The media type of a member's values, where they have one: the member's own, else that of its target. No memory.
    pub fn media_type(&self, member: u32) -> &Option<Text>
        requires { member < member_count (table_data self.now) }
        ensures { result.now ≡ media_type_at (table_data self.now) member }
    {
        &self.member(member).media_type
    }

    /// Whether a value of its shape must have the member. No memory.
    pub fn required(&self, member: u32) -> bool
        requires { member < member_count (table_data self.now) }
        ensures { result ≡ required_at (table_data self.now) member }
    {
        self.member(member).required
    }

    /// The name of a member; one that isn't in the table has the empty name. No memory.
    pub fn name_of(&self, member: u32) -> &str
        ensures { result.now ≡ name_at (table_data self.now) member }
    {
        match self.members.rows.get(member as usize) {
            Some(row) => row.name.as_str(),
            None => "",
        }
    }

    /// The name of a member where JSON names are looked at; one that isn't in the table has the empty name. No memory.
    pub fn json_name_of(&self, member: u32) -> &str
        ensures { result.now ≡ json_name_at (table_data self.now) member }
    {
        match self.members.rows.get(member as usize) {
            Some(row) => match &row.json_name {
                Some(name) => name.as_str(),
                None => row.name.as_str(),
            },
            None => "",
        }
    }

    /// The member of a shape that has this name. A binary search. No memory.
    pub fn member_named(&self, shape: u32, name: &str) -> Option<u32>
        requires number { shape < shape_count (table_data self.now) }
        requires shaped { Shaped (table_data self.now) }
        ensures { result ≡ member_with (name_at (table_data self.now)) name.now (members_at (table_data self.now) shape) }
    {
        let numbers = self.by_name(shape);
        match numbers.binary_search_by(|member| self.name_of(*member).cmp(name)) {
            Ok(place) => Some(numbers[place]),
            Err(_) => None,
        }
    }

    /// The member of a shape that has this name where JSON names are looked at. A binary search. No memory.
    pub fn member_json_named(&self, shape: u32, name: &str) -> Option<u32>
        requires number { shape < shape_count (table_data self.now) }
        requires shaped { Shaped (table_data self.now) }
        ensures { result ≡ member_with (json_name_at (table_data self.now)) name.now (members_at (table_data self.now) shape) }
    {
        let numbers = self.by_json_name(shape);
        match numbers.binary_search_by(|member| self.json_name_of(*member).cmp(name)) {
            Ok(place) => Some(numbers[place]),
            Err(_) => None,
        }
    }

    /// Puts defaults into the table, by the numbers of its members. Members behind the last one that is told stay as they are, and nothing
    /// else is changed. No memory.
    pub fn set_defaults(&mut self, defaults: Vec<Option<Value>>)
        ensures { table_data self.new ≡ table_with_defaults (table_data self.old) (defaults_view defaults.items) }
    {
        self.members.set_defaults(defaults);
    }

    /// Puts each binding, or none, at the member of its place, from the first on: where there are fewer, the members behind them stay as
    /// they are, and nothing else is changed. No memory.
    pub fn set_bindings(&mut self, bindings: Vec<Option<Binding>>)
        ensures { table_data self.new ≡ table_with_bindings (table_data self.old) (bindings_view bindings.items) }
    {
        self.members.set_bindings(bindings);
    }

    /// The greatest number of members of one shape that have a default. Time as the members of all shapes. No memory.
    pub fn most_defaults(&self) -> u64
        ensures { result ≡ most_defaults (table_data self.now) }
    {
        let mut most = 0;
        for shape in &self.shapes.rows {
            let count = self.defaults_among(shape.members.as_slice());
            if most < count {
                most = count;
            }
        }
        most
    }

    // How many of these members have a default; one that isn't in the table has none.
    fn defaults_among(&self, members: &[u32]) -> u64
        ensures count { result ≡ defaults_among (table_data self.now) members.now }
    {
        let mut count: u64 = 0;
        for member in members {
            if self.has_default(*member) {
                count += 1;
            }
        }
        count
    }

    // Whether the member has a default.
    fn has_default(&self, member: u32) -> bool
        ensures { (if result then 1 else 0) ≡ count_of_default (default_at (table_data self.now) member) }
    {
        match self.members.rows.get(member as usize) {
            Some(row) => row.default.is_some(),
            None => false,
        }
    }
}
