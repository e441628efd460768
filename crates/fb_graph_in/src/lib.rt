//! The reader of a decoding graph's text.

#![tactic(auto)]

mod entries;
pub mod faults;
mod numbers;
pub mod reader;
mod tokens;

pub use faults::{Member, Place, TextFault};
pub use reader::read_graph;
