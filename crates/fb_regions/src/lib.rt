//! The dual state of the blossom algorithm: regions that grow round defects (Edmonds 1965; Wu and Zhong 2023).

#![tactic(auto)]

mod clock;
mod heads;
mod listing;
mod marks;
mod merging;
mod paged_numbers;
mod places;
mod region;
pub mod regions;
pub mod residues;
pub mod roles;
mod sparse;

pub use fb_graph::Cut as Layer;
pub use fb_links::{NodeId, Step, Walk};
pub use regions::{Holder, Regions, SpareRegions};
pub use residues::residue_left;
pub use roles::{Role, Roles};
