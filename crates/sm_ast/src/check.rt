// Whether a tree is a model, part by part: each check answers that there is no fault, or tells the first one. Nothing is made
// here but paths.
mod field;
mod member;
mod node;
mod pairs;
mod property;
mod reference;
mod shape;
mod text;
mod top;
mod traits;

pub(crate) use top::check_model;
