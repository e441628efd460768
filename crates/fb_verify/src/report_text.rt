//! The reader of a report's text.

ghost use Rattle.std.specs.Prelude.{◌≡◌, ◌≢◌, ◌<◌, ◌^◌, All, Ok, Err, IfOk, IfErr, length};
ghost use Rattle.fb_verify.specs.Reports.{report_of_text};
ghost use Rattle.fb_verify.specs.Verdicts.{HasPositiveValues};
ghost use Rattle.fb_verify.specs.declared.report_faults.ReportFault.TheVariants.{NoMemory};

use crate::gathering::Gathered;
use crate::report_faults::ReportFault;
use crate::report_lines::{NextLine, ReportLines};
use crate::reports::Report;
use std::alloc::Global;

/// The report that a text is, whoever made it, or the first line that fails. It takes time and memory by the text's
/// length.
pub fn read_report(alloc: Global, bytes: &[u8]) -> Result<Report, ReportFault>
    ensures ok { IfOk result (λ r. report_of_text bytes.now ≡ Ok r) }
    ensures err { IfErr result (λ e. e ≢ NoMemory → report_of_text bytes.now ≡ Err e) }
    ensures values { IfOk result (λ r. All HasPositiveValues r.rows) }
    ensures count { IfOk result (λ r. length r.rows < 2 ^ 32) }
{
    read_text(alloc, bytes)
}

/// The report alone.
fn read_text(alloc: Global, bytes: &[u8]) -> Result<Report, ReportFault>
    ensures ok { IfOk result (λ r. report_of_text bytes.now ≡ Ok r) }
    ensures err { IfErr result (λ e. e ≢ NoMemory → report_of_text bytes.now ≡ Err e) }
{
    let mut lines = match ReportLines::new(bytes) {
        Ok(lines) => lines,
        Err(fault) => return Err(fault),
    };
    let mut gathered = Gathered::new(alloc);
    loop {
        match lines.next(alloc) {
            Ok(NextLine::Line(said, more)) => {
                gathered = gathered.add(alloc, said)?;
                lines = more;
            }
            Ok(NextLine::Done(totals)) => {
                let rows = gathered.rows;
                return Ok(Report { rows, totals });
            }
            Err(fault) => return Err(fault),
        }
    }
}
