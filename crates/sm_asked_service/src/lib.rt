// What commands over a service of a model share: the service of an id in the model of model files, compiled over a store of patterns, with
// the defaults that count.
#![tactic(auto)]

mod service;
mod words;

pub use service::load_service;
pub use sm_asked_shape::{sm_asked, sm_load};
pub use sm_service;
pub use words::{models_before, protocol_named, protocol_word};
