//! From a solved root to the row of its shot.

#![tactic(auto)]

mod exchange;
pub mod laws;
mod marks;
mod opening;
mod rows;

pub use laws::{opened_by_number, root_is_right};
pub use rows::resolve;
