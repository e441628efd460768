//! What a command line may ask of the program: a request for each command, and its limits.

#![tactic(auto)]

pub mod coding;
pub mod format;
pub mod laws;
pub mod limits;
pub mod request;
pub mod usage;

pub use coding::Coding;
pub use format::Format;
pub use limits::{MOST_AT_ONCE, MOST_WORKERS};
pub use request::{Checking, Decoding, Planning, Predicting, Request, Sampling};
pub use usage::UsageKind;
