//! Small graphs and their states that meet the premises of the laws of the method, so that each law applies somewhere.
//! Nothing that the program does rests on them.

#![tactic(auto)]

pub mod examples;
pub mod instances;
pub mod link_instances;
pub mod nest_instances;
pub mod shot_instances;
pub mod state_instances;
pub mod witnesses;

pub use examples::{opening_examples, ring_witness, search_witness};
pub use instances::{cycle_witness, fused_witness, nest_witness, nested_witness, tree_witness};
pub use link_instances::{match_witness, met_witness, number_witness};
pub use nest_instances::{
    agreed_witness, bound_witness, held_witness, leaf_witness, renamed_witness, row_witness,
    seam_witness,
};
pub use shot_instances::shot_witness;
pub use state_instances::state_witness;
pub use witnesses::{
    blossom_witness, cover_witness, dual_witness, end_witness, forming_witness, fusion_witness,
    link_witness, merging_witness, opening_witness, parity_witness, path_witness, signed_witness,
    step_witness, work_witness,
};
