//! How a command ends if a file that it needs can't be used.

ghost use Rattle.std.specs.Prelude.{◌≡◌, ◌≢◌, ◌<◌, [], ◌∷◌, ℕ, List, Option, IfOk, IfErr, OnOk};
ghost use Rattle.fb_ports.specs.Causes.{HasRoom};
ghost use Rattle.fb_exits.specs.Ends.{CountsReadFault, EndsAtFile, IsGraphRefusal, IsReadToItsEnd};
ghost use Rattle.fb_exits.specs.InternalCauses.{cause_at_file};
ghost use Rattle.fb_files.specs.Judging.{Asks, Holds, IsGraphText};
ghost use Rattle.fb_files.specs.Moments.{moment};
ghost use Rattle.fb_exits.specs.declared.ending.Refusal.TheVariants as refusal;

use crate::ending::{Cause, Refusal};
use fb_files::{FileFault, read_graph_file};
use fb_graph::Graph;
use fb_graph_in::TextFault;
use fb_plan::PlanFault;
use fb_ports::Files;
use fb_predict::ObsFault;
use fb_verify::ReportFault;
use std::alloc::Global;

/// The graph of the named file. Returns an error if its text is refused, it can't be opened or read, or memory runs out: the
/// cause with which a command ends that needs the graph.
pub fn graph_or_cause<F: Files>(alloc: Global, files: &mut F, name: &str) -> Result<Graph, Cause>
    requires { HasRoom (F.asked files.old) 16 }
    ensures names { F.named files.new ≡ F.named files.old }
    ensures graph { IfOk result (λ g. Holds (F.named files.old) name.now (IsGraphText g)) }
    ensures asked { OnOk result (Asks (F.asked files.old) (F.asked files.new) (name.now ∷ [])) }
    ensures unfailing { OnOk result (F.faults files.new ≡ F.faults files.old) }
    ensures ends { IfErr result (λ cause. (written : Option (List ℕ)) → EndsAtFile (IsGraphRefusal (F.named files.old) name.now) name.now
        (moment (F.named files.old) (F.left files.old) (F.asked files.old) (F.faults files.old) written)
        (moment (F.named files.new) (F.left files.new) (F.asked files.new) (F.faults files.new) written) cause) }
    ensures early { IfErr result (λ cause. IsReadToItsEnd cause → ⊥) }
    ensures reads { IfErr result (λ cause. CountsReadFault cause (F.faults files.old) (F.faults files.new)) }
    ensures unwritten { IfErr result (λ cause. cause ≢ Cause.WriteFault) }
{
    match read_graph_file(alloc, files, name) {
        Ok(graph) => Ok(graph),
        Err(fault) => Err(cause_of_graph(fault)),
    }
}

/// The cause of a command's end, by the fault of its graph's file.
fn cause_of_graph(fault: FileFault<TextFault>) -> Cause
    ensures { result ≡ cause_at_file refusal.Graph fault }
{
    match fault {
        FileFault::Refused(fault) => Cause::Refused(Refusal::Graph(fault)),
        FileFault::ReadFault => Cause::ReadFault,
        FileFault::NoMemory => Cause::NoMemory,
    }
}

/// The cause of a command's end, by the fault of its plan's file.
pub fn cause_of_plan(fault: FileFault<PlanFault>) -> Cause
    ensures { result ≡ cause_at_file refusal.Plan fault }
{
    match fault {
        FileFault::Refused(fault) => Cause::Refused(Refusal::Plan(fault)),
        FileFault::ReadFault => Cause::ReadFault,
        FileFault::NoMemory => Cause::NoMemory,
    }
}

/// The cause of a command's end, by the fault of its report's file.
pub fn cause_of_report(fault: FileFault<ReportFault>) -> Cause
    ensures { result ≡ cause_at_file refusal.Report fault }
{
    match fault {
        FileFault::Refused(fault) => Cause::Refused(Refusal::Report(fault)),
        FileFault::ReadFault => Cause::ReadFault,
        FileFault::NoMemory => Cause::NoMemory,
    }
}

/// The cause of a command's end, by the fault of its observables' file.
pub fn cause_of_observables(fault: FileFault<ObsFault>) -> Cause
    ensures { result ≡ cause_at_file refusal.Observables fault }
{
    match fault {
        FileFault::Refused(fault) => Cause::Refused(Refusal::Observables(fault)),
        FileFault::ReadFault => Cause::ReadFault,
        FileFault::NoMemory => Cause::NoMemory,
    }
}
