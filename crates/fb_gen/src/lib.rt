//! Graphs of a lattice with their plans by time, and shots drawn at random on a graph.

#![tactic(auto)]

pub mod drawing;
pub mod faults;
pub mod lattices;
pub mod levels;
pub mod plans;
pub mod shares;

pub use drawing::{Draws, draw};
pub use faults::GenFault;
pub use lattices::lattice;
pub use levels::{Fusion, all_fusions};
pub use plans::time_plan;
pub use shares::first_rounds;
