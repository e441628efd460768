//! Why a run ends: the status of its process, its line on standard error, and how it ends at a file that can't be used.

#![tactic(auto)]

mod ending;
mod file_causes;
mod saying;

pub use ending::{Cause, Ended, Refusal};
pub use file_causes::{cause_of_observables, cause_of_plan, cause_of_report, graph_or_cause};
pub use saying::say;
