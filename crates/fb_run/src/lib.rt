//! The top call of `fusion`: from a command line and files to a report.

#![tactic(auto)]

mod batches;
mod busy;
mod decoding;
mod laws;
mod running;
mod sample_text;
mod sampling;

pub use fb_crew::{Gate, OpenGate};
pub use fb_exits::{Cause, Ended, Refusal, say};
pub use fb_request::UsageKind;
pub use laws::{limits_of_crews, reads_back};
pub use running::run;
