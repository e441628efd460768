//! The reader of a report, and a check of its rows: whether each correction with its certificate is right for its shot.

#![tactic(auto)]

pub mod checking;
mod cuts;
mod gathering;
mod laws;
mod line_words;
pub mod lines;
mod load_table;
mod loads;
mod numbers;
mod parities;
pub mod report_faults;
pub mod report_lines;
pub mod report_text;
pub mod reports;
mod shares;
mod splitting;
mod sums;
pub mod verdicts;
pub mod walking;

pub use checking::{Judge, check_row};
pub use laws::{reads_as_is, reads_back};
pub use lines::Line;
pub use report_faults::ReportFault;
pub use report_lines::{MOST_REPORT_BYTES, NextLine, ReportLines};
pub use report_text::read_report;
pub use reports::{Report, RowList, Totals};
pub use verdicts::{Numbers, Verdict};
