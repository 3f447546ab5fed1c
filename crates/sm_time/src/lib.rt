// Stamps: whole milliseconds of the years 0000 to 9999, and their texts in Smithy's three formats (Smithy 2.0,
// "timestampFormat trait"; RFC 3339, RFC 9110). The calls take no memory.
#![tactic(auto)]

mod civil;
mod date_time;
mod digits;
mod epoch_seconds;
mod format;
mod http_date;
pub mod laws;
mod stamp;
mod zone;

pub use format::{Format, TimeRefusal};
pub use stamp::Stamp;
