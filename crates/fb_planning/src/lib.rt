//! The command `plan`: the plan of a graph by its layers.

#![tactic(auto)]

mod planning;

pub use planning::plan;
