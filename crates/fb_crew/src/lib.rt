//! Workers that do the items of a job, one after another on the calling thread or side by side on threads of their own;
//! and over them the solver, which makes the rows of a window of shots.

#![tactic(auto)]

pub mod crew;
mod ends;
pub mod finished;
pub mod here;
mod placed;
pub mod solver;
mod sorting;
pub mod window;
mod worker;

pub use crew::work_all;
pub use fb_book::{Entry, EntryKind};
pub use fb_hands::{Gate, Hands, OpenGate};
pub use fb_slots::Run;
pub use finished::{Finished, Worked};
pub use here::work_here;
pub use solver::{Counts, Solved, Solver, Tools};
pub use window::{Crew, Window, decode_here, decode_window};
