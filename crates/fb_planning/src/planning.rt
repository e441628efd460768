//! The command `plan`: writes the plan of a graph by its layers.

ghost use Rattle.std.specs.Prelude.{◌≡◌, ◌≢◌, ◌≤◌, string_bytes, IfOk, IfErr};
ghost use Rattle.fb_exits.specs.Ends.{CountsReadFault};
ghost use Rattle.fb_files.specs.Moments.{moment};
ghost use Rattle.fb_layers.specs.PlanByLayers.{IsFault};
ghost use Rattle.fb_plan.specs.Plans.{most_units};
ghost use Rattle.fb_planning.specs.PlanEndings.{IsTextByLayers, PlanEnds, WritesPlan};
ghost use Rattle.fb_ports.specs.Causes.{CountsFault, IsEmptyIfKnown};
ghost use Rattle.fb_request.specs.PlainRequests.{plain_planning};
ghost use Rattle.fb_request.specs.Ranges.{IsWithin};
ghost use Rattle.fb_request.specs.Ranges as ranges;

use fb_exits::{Cause, Refusal, graph_or_cause};
use fb_graph::Graph;
use fb_layers::ByLayers;
use fb_plan::{Plan, PlanFault};
use fb_plan_out::plan_text;
use fb_ports::{Files, Sink, put_all};
use fb_request::Planning;
use std::alloc::Global;

/// Writes the plan of the graph that is named, by its layers. Nothing is written before the whole text is made.
pub fn plan<F: Files, O: Sink>(
    alloc: Global,
    request: &Planning<'_>,
    files: &mut F,
    out: &mut O,
) -> Cause
    requires asked { IsEmptyIfKnown (F.asked files.old) }
    requires units { IsWithin ranges.units request.now.units }
    ensures ends { PlanEnds (plain_planning request.now)
        (moment (F.named files.old) (F.left files.old) (F.asked files.old) (F.faults files.old) (O.taken out.old))
        (moment (F.named files.new) (F.left files.new) (F.asked files.new) (F.faults files.new) (O.taken out.new)) result }
    ensures reads { CountsReadFault result (F.faults files.old) (F.faults files.new) }
    ensures writes { CountsFault (result ≡ Cause.WriteFault) (O.faults out.old) (O.faults out.new) }
{
    match graph_or_cause(alloc, files, request.graph) {
        Ok(graph) => plan_graph(alloc, &graph, request.units, out),
        Err(cause) => cause,
    }
}

/// Writes the plan of a graph by its layers.
fn plan_graph<O: Sink>(alloc: Global, graph: &Graph, units: u32, out: &mut O) -> Cause
    requires { IsWithin ranges.units units }
    ensures ends { WritesPlan graph.now units (O.taken out.old) (O.taken out.new) result }
    ensures unread { result ≢ Cause.ReadFault }
    ensures writes { CountsFault (result ≡ Cause.WriteFault) (O.faults out.old) (O.faults out.new) }
{
    let text = match text_by_layers(alloc, graph, units) {
        Ok(text) => text,
        Err(PlanFault::TooFewLayers(height)) => {
            return Cause::Refused(Refusal::TooFewLayers(height));
        }
        Err(_) => return Cause::NoMemory,
    };
    let Ok(()) = put_all(out, text.as_bytes()) else {
        return Cause::WriteFault;
    };
    Cause::Done
}

/// The text of the plan of a graph by its layers, if these are enough for so many units.
fn text_by_layers(alloc: Global, graph: &Graph, units: u32) -> Result<String, PlanFault>
    requires some { 1 ≤ units }
    requires limit { units ≤ most_units }
    ensures text { IfOk result (λ s. IsTextByLayers graph.now units (string_bytes s)) }
    ensures fault { IfErr result (IsFault graph.now units) }
{
    let plan = Plan::by_layers(alloc, graph, units)?;
    let text = plan_text(alloc, graph, &plan)?;
    Ok(text)
}
