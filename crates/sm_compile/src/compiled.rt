// What compiling gives, and why it gives nothing.
use sm_ids::ShapeId;
use sm_shapes::tables::Table;
use sm_tree::Text;

/// Whether values of a shape can be carried.
#[derive(Debug, Drop)]
pub enum Served {
    /// They can.
    Yes,
    /// The first member path that leads to a shape that isn't served, its names joined by `/`; empty for the shape itself.
    Unserved(Text),
}

/// A shape with all that it reaches.
#[derive(Debug, Drop)]
pub struct OneShape {
    /// The shapes that are reached, with their members.
    pub table: Table,
    /// The number of the shape in the table.
    pub shape: u32,
    /// Whether its values can be carried.
    pub served: Served,
}

/// Why a shape isn't compiled.
#[derive(Debug, Drop)]
pub enum CompileRefusal {
    /// The id names no shape that has values.
    NoShape,
    /// The store of patterns refused one that is reached: the least id of those that carry its text.
    Pattern(ShapeId),
    /// The allocator refused the memory that compiling needs.
    NoMemory,
}
