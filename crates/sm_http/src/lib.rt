// HTTP/1.1 messages (RFC 9110, RFC 9112) in the profile of this product: where one message ends and the next begins is said
// by a definition on bytes, whatever the cuts in which they come.
#![tactic(auto)]

mod body_fields;
mod connection;
mod fields;
mod first_line;
mod head;
mod held;
pub mod laws;
mod limits;
mod line;
mod look;
mod message;
mod piece;
mod place;
mod read;
mod refusal;
mod see;
mod size_line;
mod tokens;
mod trailers;
mod write;

pub use connection::{for_head, says_close, with_close};
pub use fields::folds_to;
pub use held::Held;
pub use message::{BodyLeft, Field, FieldList, Head, Message, MessageSide, Protocol, Start};
pub use piece::read_piece;
pub use read::{read_head, read_message};
pub use refusal::HttpRefusal;
pub use tokens::{trim, trim_front};
pub use write::{message_len, phrase_of, write_message};
