//! A board whose workers claim and post without a lock.

#![tactic(auto)]

mod board;
mod calls;
mod ends;
mod history;
mod law;
mod places;
mod run;
mod seats;
mod ticket;
mod views;

pub use board::{After, Claimed, Closed, SlotBook};
pub use history::history_of;
pub use run::Run;
pub use seats::SlotSeat;
pub use ticket::Ticket;
