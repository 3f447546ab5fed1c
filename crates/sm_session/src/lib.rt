// Sessions: requests of the front are answered one after the other, each by itself or through one request to the back. What
// answers them is a parameter, so this crate knows no protocol.
#![tactic(auto)]

pub mod laws;
mod own_answers;
mod putting;
mod responder;
mod serving;
mod session_end;
mod taking;
mod turning;

pub use own_answers::{back_answer, back_line, framing_answer, line_answer};
pub use responder::{Responder, Turn};
pub use serving::{TURN_LIMIT, run_session};
pub use session_end::SessionEnd;
