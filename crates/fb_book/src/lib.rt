//! The board of a run: which unit or fusion may be taken, the history of what was, and the pieces that wait.

#![tactic(auto)]

pub mod book;
pub mod entries;
mod items;
pub mod laws;
pub mod limits;
pub mod moves;
mod parking;
pub mod permit;
mod ready;
pub mod tables;

pub use book::{Book, Claim};
pub use entries::{Entry, EntryKind, Status};
pub use laws::{
    complete_history, entries_of_item, items_of_plan, order_of_nodes, progress, renumbered_slots,
};
pub use limits::{MOST_AT_ONCE, MOST_WORKERS};
pub use permit::{Board, Permit, Piece};
