// Bytes in and out: sources, sinks and files, each with a count of its faults, over memory and over std.
// A contract says which bytes moved where the object tells them, and that a fault is answered only where the count rose.
#![tactic(auto)]

mod calm;
mod calm_files;
mod disk;
mod files;
pub mod laws;
mod mem_files;
mod memory;
mod named;
mod reading;
mod script;
mod sink;
mod source;
mod std_edges;

pub use calm::{CalmSink, CalmSource};
pub use calm_files::CalmFiles;
pub use disk::DiskFiles;
pub use files::{FileRefusal, Files};
pub use mem_files::MemFiles;
pub use memory::{MemSink, MemSource};
pub use reading::{ReadRefusal, read_all};
pub use sink::{PutRefusal, Sink};
pub use source::{Failed, Source};
pub use std_edges::{StdSink, StdSource};
