// What a decoder keeps of each list and object that is open, of a tag, and of what is passed over. Contracts see frames as
// specs/Decoding.antt says.
mod ending;
mod entries;
mod faults;
mod keys;
mod leaf;
mod maps;
mod members;
mod opening;
mod seen;
mod stack;
mod unions;

pub(crate) use faults::fault_here;
pub(crate) use keys::{Key, KeyFrame};
pub(crate) use leaf::leaf_arrives;
pub(crate) use opening::{list_at, object_at};
pub(crate) use seen::Members;
use sm_shapes::values::{Entries, Fields, Items, Value};
use sm_shapes::{Fault, FaultKind};
pub(crate) use stack::Due;

/// A structure or a union that is open.
#[derive(Debug, Drop)]
pub struct MemberFrame {
    /// The number of its shape.
    pub shape: u32,
    /// The values of members that are closed, in model order.
    pub fields: Fields,
    /// The members that are closed.
    pub seen: Members,
    /// The member whose value isn't closed yet.
    pub current: Option<u32>,
    /// The first fault of the closed members, its path from here on.
    pub fault: Option<Fault>,
}

/// A list that is open.
#[derive(Debug, Drop)]
pub struct EntryFrame {
    /// The number of its shape.
    pub shape: u32,
    /// The values of entries that are closed.
    pub items: Items,
    /// How many entries are closed.
    pub count: u64,
    /// The first fault of the closed entries, its path from here on.
    pub fault: Option<Fault>,
}

/// What is open, or due.
#[derive(Drop)]
pub enum Frame {
    /// A structure.
    Structure(MemberFrame),
    /// A union.
    Union(MemberFrame),
    /// A list.
    List(EntryFrame),
    /// A map.
    Map(KeyFrame),
    /// A tag at a place of a simple type: the number of the place's shape, and the tag's.
    Tagged(u32, u64),
    /// What is passed over: how many lists and objects are open from its beginning on, and the fault to give at its end, if any.
    Skip(u32, Option<FaultKind>),
}

/// The frames of a decoder, the root's first.
#[derive(Drop)]
pub struct Frames {
    pub(crate) frames: Vec<Frame>,
}

/// What the root comes to, or a tree that is closed.
#[derive(Debug, Drop)]
pub enum Outcome {
    /// Its value.
    Good(Value),
    /// Its first fault.
    Bad(Fault),
}

/// What a tree that is closed comes to, as far as a frame is told.
#[derive(Debug, Drop)]
pub(crate) enum Arrival {
    /// It is null.
    Null,
    /// Its value.
    Value(Value),
    /// Its first fault, the path from the tree on.
    Fault(Fault),
}
