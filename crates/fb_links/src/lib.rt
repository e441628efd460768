//! Walks between vertices, the links made of them, and the cycles that links close.

#![tactic(auto)]

pub mod cycle;
pub mod laws;
pub mod links;
pub mod names;
mod span;
mod steps;
pub mod walk;

pub use cycle::{CycleStep, LinkId, NodeId};
pub use laws::{adding, joining, merging};
pub use links::Links;
pub use steps::turn_from;
pub use walk::{Step, Walk};

/// Memory ran out.
pub use std::alloc::AllocError as NoMemory;
