// The texts that are written for values in the parts of HTTP messages (Smithy 2.0, "HTTP binding traits"), and which values have none there.
// Nothing here knows which member is bound to what.
#![tactic(auto)]

mod carried;
mod fields;
pub mod laws;
mod pairs;
mod texts;

pub use carried::{Spot, TextTest, first_uncarried, is_carried, is_field_text, is_filled};
pub use fields::{field_of, field_value, put_prefixed};
pub use pairs::{put_keyed, put_pairs};
pub use texts::{bytes_at, has_text_at, text_at};
