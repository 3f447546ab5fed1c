// What is held of the body of a message, while its pieces come, is bounded, whatever is sent: by the bytes that have come, and by the levels
// that are read.
#![tactic(auto)]

pub mod laws;
