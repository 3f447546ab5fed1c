// The parts of messages that are written for values by HTTP bindings (Smithy 2.0, "HTTP binding traits"), which values they carry, and which
// operations aren't served so.
#![tactic(auto)]

mod bound;
mod carried;
mod map_spots;
mod met;
mod paths;
mod payload;
mod restrictions;
mod seen;
mod spots;
mod status;
mod taken;
mod writing;

pub use carried::{is_carried, not_carried};
pub use met::fields_in;
pub use restrictions::{is_media_type, restriction};
pub use sm_bind;
pub use writing::split;
