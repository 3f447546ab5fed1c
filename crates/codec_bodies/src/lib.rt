// Bodies by tables that are written down: a table from a JSON object of shapes, checked to be in order; and by the name of a convention a
// body's value, and the bytes that are written for a value. The programs that play rows on the codec and measure it stand on it.
#![tactic(auto)]

mod by_tree;
mod look;
mod lookups;
mod made;
mod members;
mod order;
mod patterns;
mod way;

pub use made::{Said, number_named, table_of};
pub use order::{is_in_order, is_shape};
pub use patterns::store;
pub use way::BodyWay;
