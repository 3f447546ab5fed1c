// Bytes of texts, below every format: the names of ASCII, runs of a class of bytes, UTF-8, the escapes of JSON, and
// bytes placed into room that is there already.
#![tactic(auto)]

mod escape;
pub mod laws;
mod no_memory;
mod place;
mod run;
mod utf8;

pub use escape::{hex_value, short_escape};
pub use no_memory::NoMemory;
pub use place::{make_room, place_byte, place_slice};
pub use run::{ByteClass, run_len};
pub use utf8::{Utf8, is_lead, is_second, is_tail, whole_len};
