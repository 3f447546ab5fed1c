// What commands over a gateway share: the words for it behind model files, and the gateway of a service of these files between two
// protocols, or what stands before it.
#![tactic(auto)]

pub mod laws;
mod making;
mod words;

pub use making::make_gateway;
pub use sm_asked_service;
pub use sm_asked_service::{sm_asked, sm_service};
pub use sm_gateway;
pub use sm_gateway::sm_rest;
pub use words::{GATEWAY_WORDS, GatewayWords, gateway_words, is_host};
