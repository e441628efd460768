//! Alternating trees (Edmonds 1965), and how they move the regions of their nodes.

#![tactic(auto)]

pub mod branch;
mod changes;
pub mod forest;
pub mod laws;
mod one_tree;
mod places;
pub mod stepping;
mod steps;
mod table;
pub mod tree;
mod tree_view;
pub mod walks;

pub use branch::Branch;
pub use fb_graph::NoMemory;
pub use fb_links::{CycleStep, LinkId, Links, NodeId};
pub use fb_regions::{Role, Roles};
pub use forest::{Forest, TreeId};
pub use laws::{changes_by_number, links_by_number, paths_listed};
pub use stepping::{grow_all, rest_tree, set_paces};
pub use tree::Tree;
pub use walks::{link_between, link_out};
