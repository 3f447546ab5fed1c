// What a change makes of a model that is accepted may be changed again, and, written, loads to itself.
#![tactic(auto)]

pub mod laws;
