//! What is in the way of an alternating tree, or how far it may step (Edmonds 1965; Wu and Zhong 2023).

#![tactic(auto)]

mod bounding;
pub mod edge_hasher;
mod ends;
pub mod entering;
pub mod finding;
mod looking;
pub mod obstacle;
pub mod queue;
mod shrinking;
pub mod singles;
pub mod watching;

pub use entering::{enter_minus, free_end, watch_node, watch_taken};
pub use fb_regions::{NodeId, Role, Roles};
pub use finding::{next_obstacle, obstacle_at};
pub use obstacle::Obstacle;
pub use singles::{
    Around, EdgeAtSingle, is_nearer, is_single, reach_over, room_beside, share, single_vertex,
    with_best,
};
pub use watching::Watch;
