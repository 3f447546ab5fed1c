// Messages of restJson1 as they are read (Smithy 2.0, "AWS restJson1 protocol", "HTTP binding traits"): begun at their heads, fed by pieces and
// finished, or whole.
#![tactic(auto)]

mod beginning;
mod body;
mod contents;
mod judging;
mod naming;
mod places;
mod reading;
mod replies;
mod values;

pub use beginning::{begin_request, begin_response};
pub use body::RestBody;
pub use reading::{read_request, read_response};
