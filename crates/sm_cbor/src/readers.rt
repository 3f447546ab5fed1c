//! The two readers below `read_tree`, for tests. That either of them reads every item by itself is only tested: `read_item`
//! owes nothing where it gives up, and what it gives up is read by `read_by_bytes`, which is `read_in_pieces` of one piece.
pub use crate::descent::{Unread, read_item};
pub use crate::pieces::{read_by_bytes, read_in_pieces};
