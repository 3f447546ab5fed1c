// Rules of models on values: of enums, of bounds, and of nodes for shapes, as defaults and as values of traits.
#![tactic(auto)]

pub mod bounds;
mod checked;
pub mod defaults;
pub mod enums;
pub mod laws;
mod nodes;
mod seen_values;
mod used;
pub mod value_marks;
pub mod values;
