//! A board behind a lock: workers that take the items of a job from one book, each on a thread of its own, and wait at
//! the lock while no item can be taken. The program's workers share a board without a lock (`fb_slots`); the tests
//! alone call this one.

#![tactic(auto)]

mod desk;
pub mod finished;
pub mod here;
mod items;
mod locked;
mod seat;
pub mod workers;

pub use finished::{Finished, Worked};
pub use here::work_here;
pub use workers::work_all;
