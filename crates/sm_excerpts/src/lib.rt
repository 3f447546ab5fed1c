// Excerpts of tables: a table with structures more, that have copies of some members of others, and what trees come to there.
#![tactic(auto)]

mod copies;
mod excerpt;
mod orders;

pub use copies::copy_of_table;
pub use excerpt::with_excerpt;
