// CBOR (RFC 8949): a reader from bytes to trees, and a writer from trees to bytes.
#![tactic(auto)]

mod claim;
mod descent;
mod head;
mod integer;
pub mod laws;
mod length;
mod pieces;
mod place;
mod put;
mod read;
pub mod readers;
mod seen;
mod source;
mod writable;
mod write;
mod writer;

pub use length::encoded_len;
pub use pieces::CborReader;
pub use read::read_tree;
pub use sm_tree::{NoMemory, SyntaxRefusal};
pub use writable::is_writable;
pub use write::write_tree;
pub use writer::CborWriter;
