// Bodies by tables: a body's bytes to its value, in pieces or whole, a value to its bytes, and the bytes of one side to those of the other.
// No tree is made between.
#![tactic(auto)]

mod body;
mod form;
pub mod laws;
mod reading;
mod translating;
mod writing;

pub use body::{Body, CborBody, JsonBody};
pub use form::BodyForm;
pub use reading::{BodyRefusal, body_value};
pub use translating::{BodyAnswer, translated};
pub use writing::{WrittenBody, carried_body, write_body};
