//! The reader of a plan's text.

#![tactic(auto)]

mod entries;
mod parts;
pub mod reader;

pub use reader::read_plan;
