//! What commands read, by the names of files: graphs, plans, observables, reports, and shots some at a time.

#![tactic(auto)]

pub mod fault;
pub mod graphs;
pub mod laws;
pub mod named;
pub mod observables;
pub mod plans;
pub mod reports;
pub mod taking;

pub use fault::FileFault;
pub use graphs::read_graph_file;
pub use named::read_named;
pub use observables::read_observables_file;
pub use plans::read_plan_file;
pub use reports::read_report_file;
pub use taking::{MOST_SHOTS, ShotsEnd, Taken, take_window};
