//! The laws of blossom matching on decoding graphs, over plain values: each function's clauses are a law.

#![tactic(auto)]

pub mod bounds;
pub mod covers;
pub mod differences;
pub mod ends;
pub mod fusion;
pub mod leaves;
pub mod lengths;
pub mod links;
pub mod merging;
pub mod moves;
pub mod nested_fusion;
pub mod parities;
pub mod part_openings;
pub mod part_states;
pub mod renaming;
pub mod resolved;
pub mod rows;
pub mod singles;
pub mod state_fusions;
pub mod state_moves;
pub mod steps;
pub mod turns;
pub mod walks;
pub mod works;

pub use bounds::step_bounds;
pub use covers::{crossings_by_cover, even_residue, free_step, links_are_level, step_heights};
pub use differences::cuts_differ;
pub use ends::{crossed_once, ends_add};
pub use fusion::{heights_fused, links_fused, parts_matched, seam_forgotten};
pub use leaves::{defects_exchanged, leaf_added};
pub use lengths::greatest_step;
pub use links::{
    empty_layer, joined_is_tight, meeting_is_tight, potential_parity, source_walk_kept,
};
pub use merging::{matchings_merged, seam_opened};
pub use moves::{
    nest_absorbed, nest_begins, nest_joined, nest_split, nest_stepped, nest_uncovered,
};
pub use nested_fusion::{nested_fused, nests_merged};
pub use parities::{attached_parity, stepped_parity};
pub use part_openings::{ends_at_turns, opened_along, part_solved};
pub use part_states::{live_links_are_tight, unmatched_are_outer};
pub use renaming::{nest_renamed, state_renamed, work_renamed};
pub use resolved::nest_resolved;
pub use rows::{odd_ones_only, solved_is_best};
pub use singles::beginning;
pub use state_fusions::state_fused;
pub use state_moves::{state_attached, state_begins, state_ended, state_layers, state_stepped};
pub use steps::{step_keeps_packing, step_loads, steps_add};
pub use turns::{step_in_turns, turns_allowed};
pub use walks::walks_kept;
pub use works::{half_opened, matching_augmented, matching_kept, work_begins};
