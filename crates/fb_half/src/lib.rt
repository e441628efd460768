//! A half-solved part of a plan: its dual state, its blossoms, its links and which of its nodes are matched (Wu and
//! Zhong 2023).

#![tactic(auto)]

pub mod both;
pub mod differences;
pub mod half;
pub mod laws;
pub mod matches;
pub mod matching;
pub mod merging;
pub mod parts;
mod reach;
pub mod seams;
mod shifting;
pub mod spare;
mod start;
mod unions;
pub mod work;

pub use half::Half;
pub use laws::outer_agreed;
pub use matches::{Match, Standing};
pub use matching::Matching;
pub use merging::leads_to_seam;
pub use parts::Parts;
pub use seams::{Seams, far_owner};
pub use spare::Spare;
pub use work::Work;
