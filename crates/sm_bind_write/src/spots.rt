// What of the value of a member isn't carried.
use sm_part_texts::Spot;
use sm_tree::Text;

/// What of a value isn't carried.
#[derive(Clone, Copy, Drop)]
pub enum PartSpot<'a> {
    /// The value itself, or an entry of it.
    InValue(Spot),
    /// In a map, what stands under this key.
    UnderKey(&'a Text, Spot),
}

/// What is told of a value without a look at its leaves.
#[derive(Clone, Copy, Drop)]
pub(crate) enum Seen<'a> {
    /// It is carried.
    Carried,
    /// This of it isn't.
    Part(PartSpot<'a>),
    /// It is written as a tree, so that its leaves decide.
    Leaves,
}
