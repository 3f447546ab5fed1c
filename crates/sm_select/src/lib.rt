// Selectors (Smithy 2.0, "Selectors"): which shapes of a graph a text picks. A text is parsed into a selector, and a selector is
// asked of a graph.
#![tactic(auto)]

mod among;
mod compare;
mod filters;
mod follow;
mod images;
pub mod laws;
mod marks;
mod neighbors;
mod other_forms;
mod parser;
mod parser_attribute;
mod parser_names;
mod parser_number;
mod parser_stack;
mod parser_taken;
mod parser_text;
mod parser_values;
mod reach;
mod refusal;
mod selecting;
mod selector;
mod staying;
mod tokens;
mod values;
mod ways;

pub use among::select_among;
pub use follow::followed;
pub use marks::all_marked;
pub use neighbors::Neighbors;
pub use parser::parse_selector;
pub use reach::reached;
pub use refusal::SelectorRefusal;
pub use selecting::select;
pub use selector::{Relations, Selector, SelectorOp, SelectorPath, SelectorStep, Selectors, Texts};
pub use ways::{Ways, image_along, image_of_walk};
