//! The plan by which a graph is decoded.

ghost use Rattle.std.specs.Prelude.{◌≡◌, ◌≢◌, ◌<◌, [], ◌∷◌, IfOk, IfErr, IsErrOf, Err};
ghost use Rattle.fb_plan.specs.Plans.{IsPlan};
ghost use Rattle.fb_ports.specs.Causes.{HasRoom, CountsFault};
ghost use Rattle.fb_files.specs.Judging.{Asks, AsksPrefix, Holds, IfRefused, IsNoPlan, IsPlanText};

use crate::fault::FileFault;
use crate::named::read_named;
use fb_graph::Graph;
use fb_json::MOST_TEXT_BYTES;
use fb_plan::{Plan, PlanFault};
use fb_plan_in::read_plan;
use fb_ports::Files;
use std::alloc::Global;

/// The plan of the graph in the named file. Returns an error if its text is refused, the file can't be opened or read, or memory
/// runs out.
pub fn read_plan_file<F: Files>(
    alloc: Global,
    files: &mut F,
    name: &str,
    graph: &Graph,
) -> Result<Plan, FileFault<PlanFault>>
    requires { HasRoom (F.asked files.old) 16 }
    ensures asks { AsksPrefix (F.asked files.old) (F.asked files.new) (name.now ∷ []) }
    ensures asked { result ≢ Err FileFault.NoMemory → Asks (F.asked files.old) (F.asked files.new) (name.now ∷ []) }
    ensures names { F.named files.new ≡ F.named files.old }
    ensures plan { IfOk result (λ t. Holds (F.named files.old) name.now (IsPlanText graph.now t)) }
    ensures valid { IfOk result (IsPlan graph.now) }
    ensures refused { IfErr result (IfRefused (λ fault. Holds (F.named files.old) name.now (IsNoPlan graph.now fault))) }
    ensures faults { CountsFault (IsErrOf result FileFault.ReadFault) (F.faults files.old) (F.faults files.new) }
    ensures reported { F.faults files.old < F.faults files.new → IsErrOf result FileFault.ReadFault }
{
    let text = read_named(alloc, files, name, MOST_TEXT_BYTES, PlanFault::TooLong)?;
    match read_plan(alloc, &text, graph) {
        Ok(plan) => Ok(plan),
        Err(PlanFault::NoMemory) => Err(FileFault::NoMemory),
        Err(fault) => Err(FileFault::Refused(fault)),
    }
}
