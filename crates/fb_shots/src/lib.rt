//! The shots of a file in order, in any of six formats, read in pieces.
#![tactic(auto)]

mod answer;
mod laws;
mod mapping;
mod pieces;
mod reader;
mod stream;
mod tally;

pub use answer::{Format, Kind, NoMemory, ShotFault, Step};
pub use laws::goes_on;
pub use stream::ShotStream;
