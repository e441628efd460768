//! Nested odd cycles of defects: the blossoms of the matching algorithm (Edmonds 1965).

#![tactic(auto)]

pub mod blossoms;
mod cycles;
mod entry;
mod forest;
mod joining;
pub mod laws;
mod leaves;
mod legs;
mod names;
mod ways;

pub use blossoms::Blossoms;
pub use fb_links::{CycleStep, LinkId, Links, NoMemory, NodeId};
pub use laws::paths;
