//! Plans of fusion over a decoding graph (Wu and Zhong 2023), the sub-problems of their nodes, and jobs.

#![tactic(auto)]

mod claims;
pub mod faults;
pub mod job;
mod judging;
pub mod laws;
mod loads;
mod order;
mod owners;
pub mod parts;
pub mod plan;
pub mod reach;
pub mod scope;
mod tree;

pub use faults::{PlanFault, PlanMember, PlanPlace};
pub use job::Job;
pub use laws::{children_apart, one_root, seam_apart, sub_problems, subtrees};
pub use parts::Join;
pub use plan::Plan;
pub use reach::Reach;
pub use scope::NodeScope;
