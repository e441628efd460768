//! The search that matches the unmatched nodes of a half-solved part (Edmonds 1965): single defects at once where an edge
//! allows it, the others by alternating trees that grow together over the dual state, until each root is matched.

#![tactic(auto)]

mod ending;
mod growing;
mod growing_all;
mod growing_begin;
mod growing_ends;
mod growing_meets;
mod growing_openings;
mod growing_pairs;
mod growing_pieces;
mod growing_rings;
mod growing_steps;
mod growing_turns;
pub mod matching_all;
mod near;
mod near_ends;
mod opening;
pub mod scratch;
pub mod searches;

pub use matching_all::match_all_from;
pub use scratch::Scratch;
pub use searches::{search, search_all, search_all_from, search_from};
