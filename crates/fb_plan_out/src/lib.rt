//! The writer of a plan's text.

#![tactic(auto)]

pub mod laws;
mod parts;
pub mod writer;

pub use laws::ranges_are_runs;
pub use writer::plan_text;
