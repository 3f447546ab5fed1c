// What holds of graphs that are accepted: those in which no rule of models fails (Smithy 2.0, "Model validation").
#![tactic(auto)]

pub mod laws;
