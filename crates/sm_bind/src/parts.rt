// The parts of a message.
use sm_http::Field;
use sm_tree::{Bytes, Text};

/// All of a message but its body. Labels and query pairs are decoded, and the pairs are those that no literal of the pattern took.
#[derive(Debug, Drop)]
pub struct Parts {
    /// The texts of labels, by their names.
    pub labels: Vec<(Text, Bytes)>,
    /// The pairs of the query.
    pub query: Vec<(Bytes, Bytes)>,
    /// The fields of the head.
    pub fields: Vec<Field>,
    /// The status. That of a request isn't looked at.
    pub status: u16,
}
