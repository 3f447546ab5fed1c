// Parts of HTTP messages in which members stand by HTTP bindings (Smithy 2.0, "HTTP binding traits"): the texts of simple values, lists in
// fields of heads, and paths and queries of targets.
#![tactic(auto)]

mod cut;
pub mod laws;
mod list_entry;
mod listing;
mod quotes;
mod targets;
mod texts;

pub use cut::{Cut, cut_at};
pub use list_entry::{HeaderCut, ListEntry};
pub use listing::entries;
pub use targets::{
    decoded, decodes_to, path_of, put_escaped, put_escaped_path, query_of, query_pairs,
};
pub use texts::{cut_of, has_written_text, put_text, read_in_field, read_in_target};
