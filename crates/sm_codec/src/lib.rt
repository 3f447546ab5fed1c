// The codec: values of any shape from the events of trees, and trees and events from values, by any convention of spelling leaves:
// its definitions, the conventions, the decoder of events, and encoding.
#![tactic(auto)]

mod carried;
mod cbor_leaves;
mod counting;
mod decoder;
mod decoding;
mod encoding;
mod events;
mod feed;
mod filling;
mod frames;
mod json_leaves;
pub mod laws;
mod leaves;
mod listed;
mod node_leaves;
mod object_events;
mod of_type;
mod places;
mod plain;
mod simple;
mod uncarried;
mod writing;

pub use carried::{all_carried, all_carried_at};
pub use cbor_leaves::CborLeaves;
pub use decoder::{Decoder, Refusal};
pub use decoding::decode;
pub use encoding::{encode, encode_at};
pub use events::{encode_events, encode_events_at};
pub use feed::Feed;
pub use filling::fill_defaults;
pub use frames::Outcome;
pub use json_leaves::JsonLeaves;
pub use leaves::{LeafRefusal, Leaves};
pub use node_leaves::NodeLeaves;
pub use object_events::encode_object_events;
pub use places::{ValuePlace, simple_of, simple_with};
pub use simple::Simple;
pub use uncarried::{carry_fault, carry_fault_at};
