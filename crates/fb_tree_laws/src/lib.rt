//! The laws of trees, searches and blossoms: each function's clauses are a law. The definitions and the lemmas are those of
//! `fb_laws`.

#![tactic(auto)]

pub mod blossoms;
pub mod bridges;
pub mod cycles;
pub mod forest_states;
pub mod forests;
pub mod forming;
pub mod held;
pub mod joining;
pub mod layers;
pub mod link_numbers;
pub mod measures;
pub mod met_links;
pub mod nested;
pub mod opening;
pub mod paths;
pub mod ranks;
pub mod rings;
pub mod searches;
pub mod splitting;
pub mod state_blossoms;
pub mod state_measures;
pub mod state_openings;
pub mod state_orders;
pub mod state_rings;
pub mod step_links;
pub mod unmatched;

pub use blossoms::{blossom_formed, blossom_opened, odd_cycle};
pub use bridges::{blossom_named, moves_lower, uncovered_back};
pub use cycles::{cycle_closed, cycle_opened};
pub use forest_states::{
    forest_state_attached, forest_state_begins, forest_state_ended, forest_state_free,
    forest_state_joined, forest_state_layers, forest_state_links, forest_state_lowers,
    forest_state_opened, forest_state_reordered,
};
pub use forests::{forest_attached, forest_begins, forest_ended, forest_stepped, forest_trees};
pub use forming::matching_formed;
pub use held::held_in_sets;
pub use joining::search_joined;
pub use layers::{search_layers, search_lowers};
pub use link_numbers::links_moved;
pub use measures::search_ends;
pub use met_links::{link_met, links_joined, links_through_defect, match_found};
pub use nested::{
    nested_attached, nested_begins, nested_ended, nested_free, nested_joined, nested_layers,
    nested_opened, nested_stepped,
};
pub use opening::{last_level, levels};
pub use paths::{alternating_path, augmented};
pub use ranks::{nodes_bounded, rank_bounded};
pub use rings::ring_reads;
pub use searches::{search_attached, search_begins, search_ended, search_stepped, search_tree};
pub use splitting::{matching_opened, search_opened};
pub use state_blossoms::state_joined;
pub use state_measures::state_lowers;
pub use state_openings::{cycle_freed, state_opened};
pub use state_orders::{others_stay, state_reordered};
pub use state_rings::state_opened_along;
pub use step_links::steps_linked;
pub use unmatched::outer_names;
