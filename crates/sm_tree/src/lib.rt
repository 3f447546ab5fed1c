// Trees of JSON (RFC 8259) and CBOR (RFC 8949), paths into them (RFC 6901), and why bytes are refused that are no text of
// one: what both formats have in common.
#![tactic(auto)]

mod build;
mod copy;
mod event;
pub mod laws;
mod nested;
pub mod number;
mod part;
mod path;
mod refusal;
mod same;
mod size;
mod source;
mod text;
mod tree;

pub use build::{FIRST_ROOM, OpenKind, TreeBuilder};
pub use copy::{copy_pairs, copy_tree};
pub use event::{Event, EventSink};
pub use nested::Nested;
pub use part::{entries_of, pairs_of, text_of, tree_under};
pub use path::{Path, Step};
pub use refusal::{MOST_LEVELS, SyntaxRefusal};
pub use same::is_same;
pub use size::tree_size;
pub use sm_bytes::NoMemory;
pub use source::EventSource;
pub use text::{Bytes, SHORT_LEN, Text};
pub use tree::{Items, Pairs, Tree};
