//! The command `check`: the rows of a report, judged by the graph and the shots.

#![tactic(auto)]

mod check_text;
mod checking;

pub use checking::check;
