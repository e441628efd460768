//! The command `predict`: the observables that the rows of a report flip.

#![tactic(auto)]

pub mod laws;
mod predicting;
mod records;

pub use predicting::predict;
