//! Predictions of flipped observables: the reader of a text of observables, and bits written in any of five formats.
#![tactic(auto)]

mod coded;
mod entries;
mod faults;
mod holders;
mod observables;
mod reader;
mod rules;
mod writing;

pub use coded::write_coded;
pub use faults::ObsFault;
pub use observables::{MOST_OBSERVABLES, Observables};
pub use reader::read_observables;
pub use writing::write_bits;
