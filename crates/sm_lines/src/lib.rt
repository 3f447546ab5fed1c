// Lines of refusals: what the program prints for a body that is refused, and a gateway answers.
#![tactic(auto)]

mod lines;

pub use lines::{fault_line, line, syntax_line, syntax_text, unserved_line};
