//! The report of a file.

ghost use Rattle.std.specs.Prelude.{◌≡◌, ◌≢◌, ◌<◌, ◌^◌, [], ◌∷◌, length, All, IfOk, IfErr, IsErrOf, Err};
ghost use Rattle.fb_ports.specs.Causes.{HasRoom, CountsFault};
ghost use Rattle.fb_verify.specs.Verdicts.{HasPositiveValues};
ghost use Rattle.fb_files.specs.Judging.{Asks, AsksPrefix, Holds, IfRefused, IsNoReport, IsReportText};

use crate::fault::FileFault;
use crate::named::read_named;
use fb_ports::Files;
use fb_verify::{MOST_REPORT_BYTES, Report, ReportFault, read_report};
use std::alloc::Global;

/// The report of the named file. Returns an error if its text is refused, the file can't be opened or read, or memory runs out.
pub fn read_report_file<F: Files>(
    alloc: Global,
    files: &mut F,
    name: &str,
) -> Result<Report, FileFault<ReportFault>>
    requires { HasRoom (F.asked files.old) 16 }
    ensures asks { AsksPrefix (F.asked files.old) (F.asked files.new) (name.now ∷ []) }
    ensures asked { result ≢ Err FileFault.NoMemory → Asks (F.asked files.old) (F.asked files.new) (name.now ∷ []) }
    ensures names { F.named files.new ≡ F.named files.old }
    ensures report { IfOk result (λ r. Holds (F.named files.old) name.now (IsReportText r)) }
    ensures values { IfOk result (λ r. All HasPositiveValues r.rows) }
    ensures count { IfOk result (λ r. length r.rows < 2 ^ 32) }
    ensures refused { IfErr result (IfRefused (λ fault. Holds (F.named files.old) name.now (IsNoReport fault))) }
    ensures faults { CountsFault (IsErrOf result FileFault.ReadFault) (F.faults files.old) (F.faults files.new) }
    ensures reported { F.faults files.old < F.faults files.new → IsErrOf result FileFault.ReadFault }
{
    let text = read_named(alloc, files, name, MOST_REPORT_BYTES, ReportFault::TooLong)?;
    match read_report(alloc, &text) {
        Ok(report) => Ok(report),
        Err(ReportFault::NoMemory) => Err(FileFault::NoMemory),
        Err(fault) => Err(FileFault::Refused(fault)),
    }
}
