// The commands: what the program does for its words, over any files, input, output and store of patterns.
#![tactic(auto)]

mod command;
pub mod laws;
mod words;

pub use command::run;
pub use sm_model_commands::sm_asked::Status;
