// The table of traits: the values that a trait may have, and where it may stand.
pub mod form;
pub mod kinds;
pub mod names;
pub mod place;
pub mod texts;
