// JSON (RFC 8259): a reader from bytes to trees, and a writer from trees to bytes.
#![tactic(auto)]

mod ascii_run;
mod byte_form;
mod escape;
pub mod laws;
mod length;
mod pieces;
mod place;
mod plain;
mod put;
mod read;
mod source;
mod spot;
mod text;
mod utf8;
mod whitespace;
mod write;
mod writer;

pub use length::{encoded_len, text_len};
pub use pieces::JsonReader;
pub use put::place_text;
pub use read::read_tree;
pub use sm_tree::{NoMemory, SyntaxRefusal};
pub use write::{place_tree, write_tree};
pub use writer::JsonWriter;
