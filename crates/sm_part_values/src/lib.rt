// Values of the texts in parts of messages (Smithy 2.0, "HTTP binding traits"): by themselves, in lists and in maps.
#![tactic(auto)]

mod faults;
mod form;
mod lists;
mod maps;
mod texts;

pub use faults::{fault_here, under_key, under_member, under_step};
pub use form::PartForm;
pub use lists::entries_value;
pub use maps::{group_entries, keyed_value};
pub use texts::{judged, text_value};
