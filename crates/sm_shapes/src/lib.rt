// Tables of shapes, values, the faults of a tree for a shape, and stores of patterns. A table is what a
// model's shapes come to once names are numbers.
#![tactic(auto)]

mod any_patterns;
mod compiled;
pub mod constraints;
mod copies;
mod enums;
mod fault;
mod judging;
pub mod kinds;
pub mod laws;
mod literal_patterns;
mod order;
mod pattern_rows;
mod patterns;
mod regex_patterns;
mod rows;
mod stored_regex;
pub mod tables;
mod twice;
mod value_puts;
pub mod values;

pub use any_patterns::AnyPatterns;
pub use fault::{Fault, FaultKind};
pub use literal_patterns::LiteralPatterns;
pub use patterns::{PatternRefusal, Patterns};
pub use regex_patterns::RegexPatterns;
pub use rows::MemberNumbers;
