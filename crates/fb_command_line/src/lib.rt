//! The words of a command line: what they ask for, or what is wrong with them.

#![tactic(auto)]

mod command;
mod help;
mod limits;
mod words;

pub use words::{WordsFault, read_words};
