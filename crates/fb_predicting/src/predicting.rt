//! The command `predict`: writes the observables that the rows of a report flip.

ghost use Rattle.std.specs.Prelude.{◌≡◌, ◌≢◌, ◌<◌, [], ◌∷◌, Err, IfErr, IfOk, IsErrOf};
ghost use Rattle.fb_exits.specs.Ends.{CountsReadFault};
ghost use Rattle.fb_files.specs.Judging.{Asks, AsksPrefix, Holds, IfRefused, IsNoReport};
ghost use Rattle.fb_files.specs.Moments.{moment};
ghost use Rattle.fb_ports.specs.Causes.{CountsFault, HasRoom, IsEmptyIfKnown};
ghost use Rattle.fb_predicting.specs.InternalRecords.{AreRecordsOfFile};
ghost use Rattle.fb_predicting.specs.PredictEndings.{ObservablesEnds, PredictEnds, ReportEnds};
ghost use Rattle.fb_request.specs.PlainRequests.{plain_predicting};

use crate::records::Records;
use fb_exits::{Cause, cause_of_observables, cause_of_report, graph_or_cause};
use fb_files::{FileFault, read_named, read_observables_file};
use fb_ports::{Files, Sink};
use fb_predict::Observables;
use fb_request::{Coding, Predicting};
use fb_verify::{MOST_REPORT_BYTES, ReportFault};
use std::alloc::Global;

/// Writes the predictions of the rows of the report that is named: the graph, the observables and the report are read and
/// judged in this order, each whole, before anything is written. No row is judged.
pub fn predict<F: Files, O: Sink>(
    alloc: Global,
    request: &Predicting<'_>,
    files: &mut F,
    out: &mut O,
) -> Cause
    requires { IsEmptyIfKnown (F.asked files.old) }
    ensures ends { PredictEnds (plain_predicting request.now)
        (moment (F.named files.old) (F.left files.old) (F.asked files.old) (F.faults files.old) (O.taken out.old))
        (moment (F.named files.new) (F.left files.new) (F.asked files.new) (F.faults files.new) (O.taken out.new)) result }
    ensures reads { CountsReadFault result (F.faults files.old) (F.faults files.new) }
    ensures writes { CountsFault (result ≡ Cause.WriteFault) (O.faults out.old) (O.faults out.new) }
{
    match graph_or_cause(alloc, files, request.graph) {
        Ok(graph) => predict_for_edges(alloc, request, graph.edge_count(), files, out),
        Err(cause) => cause,
    }
}

/// Writes the predictions for a graph with a number of edges.
fn predict_for_edges<F: Files, O: Sink>(
    alloc: Global,
    request: &Predicting<'_>,
    edge_count: u32,
    files: &mut F,
    out: &mut O,
) -> Cause
    requires { HasRoom (F.asked files.old) 15 }
    ensures ends { ObservablesEnds (plain_predicting request.now) edge_count
        (moment (F.named files.old) (F.left files.old) (F.asked files.old) (F.faults files.old) (O.taken out.old))
        (moment (F.named files.new) (F.left files.new) (F.asked files.new) (F.faults files.new) (O.taken out.new)) result }
    ensures reads { CountsReadFault result (F.faults files.old) (F.faults files.new) }
    ensures writes { CountsFault (result ≡ Cause.WriteFault) (O.faults out.old) (O.faults out.new) }
{
    match read_observables_file(alloc, files, request.observables, edge_count) {
        Ok(observables) => predict_observables(alloc, request, &observables, files, out),
        Err(fault) => cause_of_observables(fault),
    }
}

/// Writes the predictions of observables. The report's text is gone before anything is written.
fn predict_observables<F: Files, O: Sink>(
    alloc: Global,
    request: &Predicting<'_>,
    observables: &Observables,
    files: &mut F,
    out: &mut O,
) -> Cause
    requires { HasRoom (F.asked files.old) 16 }
    ensures ends { ReportEnds (plain_predicting request.now) observables.now
        (moment (F.named files.old) (F.left files.old) (F.asked files.old) (F.faults files.old) (O.taken out.old))
        (moment (F.named files.new) (F.left files.new) (F.asked files.new) (F.faults files.new) (O.taken out.new)) result }
    ensures reads { CountsReadFault result (F.faults files.old) (F.faults files.new) }
    ensures writes { CountsFault (result ≡ Cause.WriteFault) (O.faults out.old) (O.faults out.new) }
{
    match records_of_file(alloc, request.to, observables, files, request.report) {
        Ok(records) => records.write(out),
        Err(fault) => cause_of_report(fault),
    }
}

/// The records of the rows of the report in the named file. Returns an error if its text is refused, the file can't be
/// opened or read, or memory runs out.
fn records_of_file<F: Files>(
    alloc: Global,
    to: Coding,
    observables: &Observables,
    files: &mut F,
    name: &str,
) -> Result<Records, FileFault<ReportFault>>
    requires { HasRoom (F.asked files.old) 16 }
    ensures asks { AsksPrefix (F.asked files.old) (F.asked files.new) (name.now ∷ []) }
    ensures asked { result ≢ Err FileFault.NoMemory → Asks (F.asked files.old) (F.asked files.new) (name.now ∷ []) }
    ensures names { F.named files.new ≡ F.named files.old }
    ensures records { IfOk result (AreRecordsOfFile to observables.now (F.named files.old) name.now) }
    ensures refused { IfErr result (IfRefused (λ fault. Holds (F.named files.old) name.now (IsNoReport fault))) }
    ensures faults { CountsFault (IsErrOf result FileFault.ReadFault) (F.faults files.old) (F.faults files.new) }
    ensures reported { F.faults files.old < F.faults files.new → IsErrOf result FileFault.ReadFault }
{
    let text = read_named(alloc, files, name, MOST_REPORT_BYTES, ReportFault::TooLong)?;
    match Records::of_report(alloc, to, observables, &text) {
        Ok(records) => Ok(records),
        Err(ReportFault::NoMemory) => Err(FileFault::NoMemory),
        Err(fault) => Err(FileFault::Refused(fault)),
    }
}
