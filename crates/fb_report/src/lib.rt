//! The writer of the report of a run: the text of its head, of each row, of trace lines and of the
//! last line, put into a sink. It takes no memory.

#![tactic(auto)]

mod pieces;
mod writers;

pub use fb_graph::{Cut, Row};
pub use writers::{write_done, write_head, write_row, write_trace};
