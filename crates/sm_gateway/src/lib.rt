// A gateway between two protocols of one service: messages cross from one side to the other, alone or in sessions.
#![tactic(auto)]

mod answers;
mod body;
mod carrying;
mod crossed;
mod crossing;
mod gateway;
pub mod laws;
mod making;
mod reading;
mod responder;
mod serving;

pub use answers::{answer_of, answer_of_framing};
pub use crossed::Crossed;
pub use gateway::Gateway;
pub use serving::serve_session;
pub use sm_protocols::sm_rest;
