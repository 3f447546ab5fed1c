// What the graph of a model says to people of the shapes of a table, and of their members: their ids, documentation, and what is deprecated.
#![tactic(auto)]

mod notes;

pub use notes::notes_of;
