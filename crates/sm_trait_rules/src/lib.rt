// Rules of models on traits (Smithy 2.0, "trait trait"): which are known, where they stand, and which stand together; and the values of
// those of Smithy's own.
#![tactic(auto)]

pub mod both_places;
pub mod conflicts;
mod exclusive;
mod first_texts;
mod judged;
mod known;
mod places;
pub mod single;
pub mod table_rules;
mod text_set;
pub mod unknown;
mod uses;
