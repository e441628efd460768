//! Two solved parts of a plan fused over the seam between them (Wu and Zhong 2023).

#![tactic(auto)]

pub mod freed;
pub mod fusing;

pub use freed::freed_count;
pub use fusing::{fuse, fuse_from};
