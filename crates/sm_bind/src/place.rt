// Where parts of messages are read and written.
use crate::side::PartSide;
use sm_shapes::tables::Table;
use sm_tree::Text;

/// A structure on a side of messages; in a request, with the literals of the pattern's query.
#[derive(Clone, Copy, Drop)]
pub struct BoundPlace<'a> {
    /// The table of the service.
    pub table: &'a Table,
    /// The side.
    pub side: PartSide,
    /// The number of the structure.
    pub shape: u32,
    /// The literals.
    pub literals: &'a [(Text, Option<Text>)],
}
