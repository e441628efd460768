//! The command `decode`.

ghost use Rattle.std.specs.Prelude.{◌≡◌, ◌+◌, ◌<◌, ◌^◌};
ghost use Rattle.fb_plan.specs.Plans.{IsPlan};
ghost use Rattle.fb_ports.specs.Causes.{HasRoom, IsEmptyIfKnown, CountsFault};
ghost use Rattle.fb_exits.specs.Ends.{CountsReadFault, IsReadToItsEnd};
ghost use Rattle.fb_files.specs.Judging.{IsReadOutIfNamed};
ghost use Rattle.fb_files.specs.Moments.{moment};
ghost use Rattle.fb_run.specs.Endings.{DecodeEnds, EndsByPlan, EndsOn};
ghost use Rattle.fb_run.specs.InternalWrites.{EndsReport, counts_in};
ghost use Rattle.fb_request.specs.Ranges.{IsWithin, windows, workers};
ghost use Rattle.fb_request.specs.PlainRequests.{plain_decoding};

use crate::batches::{Decoded, decode_file};
use fb_crew::{Crew, Gate};
use fb_exits::{Cause, Refusal, cause_of_plan, graph_or_cause};
use fb_files::{ShotsEnd, read_plan_file};
use fb_graph::Graph;
use fb_plan::Plan;
use fb_ports::{Files, RowsFault, Sink};
use fb_report::{write_done, write_head};
use fb_request::Decoding;
use std::alloc::Global;
use std::thread::Threads;

/// Decodes the shots of the files that are named: the graph is read and judged, and then the plan, if one is named; the
/// head is written, the shots are read, and their rows are written.
pub fn decode<F: Files, O: Sink, G: Gate, R: Threads + Sync>(
    rt: &R,
    alloc: Global,
    request: &Decoding<'_>,
    files: &mut F,
    out: &mut O,
    gate: &G,
) -> Cause
    requires asked { IsEmptyIfKnown (F.asked files.old) }
    requires workers { IsWithin workers request.now.workers }
    requires window { IsWithin windows request.now.window }
    ensures ends { DecodeEnds (plain_decoding request.now)
        (moment (F.named files.old) (F.left files.old) (F.asked files.old) (F.faults files.old) (O.taken out.old))
        (moment (F.named files.new) (F.left files.new) (F.asked files.new) (F.faults files.new) (O.taken out.new)) result }
    ensures at_end { IsReadToItsEnd result → IsReadOutIfNamed (F.named files.old) (F.left files.new) }
    ensures reads { CountsReadFault result (F.faults files.old) (F.faults files.new) }
    ensures writes { CountsFault (result ≡ Cause.WriteFault) (O.faults out.old) (O.faults out.new) }
{
    match graph_or_cause(alloc, files, request.graph) {
        Ok(graph) => decode_on(rt, alloc, request, &graph, files, out, gate),
        Err(cause) => cause,
    }
}

/// Decodes the shots of the file that is named, for a graph: by the plan of the file that is named, or by that of one unit.
fn decode_on<F: Files, O: Sink, G: Gate, R: Threads + Sync>(
    rt: &R,
    alloc: Global,
    request: &Decoding<'_>,
    graph: &Graph,
    files: &mut F,
    out: &mut O,
    gate: &G,
) -> Cause
    requires room { HasRoom (F.asked files.old) 15 }
    requires workers { IsWithin workers request.now.workers }
    requires window { IsWithin windows request.now.window }
    ensures ends { EndsByPlan (plain_decoding request.now).plan (plain_decoding request.now) graph.now
        (moment (F.named files.old) (F.left files.old) (F.asked files.old) (F.faults files.old) (O.taken out.old))
        (moment (F.named files.new) (F.left files.new) (F.asked files.new) (F.faults files.new) (O.taken out.new)) result }
    ensures at_end { IsReadToItsEnd result → IsReadOutIfNamed (F.named files.old) (F.left files.new) }
    ensures reads { CountsReadFault result (F.faults files.old) (F.faults files.new) }
    ensures writes { CountsFault (result ≡ Cause.WriteFault) (O.faults out.old) (O.faults out.new) }
{
    let Some(name) = request.plan else {
        return match Plan::single(alloc, graph) {
            Ok(plan) => decode_by(rt, alloc, request, graph, &plan, files, out, gate),
            Err(_) => Cause::NoMemory,
        };
    };
    match read_plan_file(alloc, files, name, graph) {
        Ok(plan) => decode_by(rt, alloc, request, graph, &plan, files, out, gate),
        Err(fault) => cause_of_plan(fault),
    }
}

/// Decodes the shots of the file that is named, for a graph and a plan of it, by a crew for these: the head is written, the
/// shots are read, and their rows are written.
fn decode_by<F: Files, O: Sink, G: Gate, R: Threads + Sync>(
    rt: &R,
    alloc: Global,
    request: &Decoding<'_>,
    graph: &Graph,
    plan: &Plan,
    files: &mut F,
    out: &mut O,
    gate: &G,
) -> Cause
    requires plan { IsPlan graph.now plan.now }
    requires room { HasRoom (F.asked files.old) 16 }
    requires workers { IsWithin workers request.now.workers }
    requires window { IsWithin windows request.now.window }
    ensures ends { EndsOn (plain_decoding request.now) graph.now plan.now
        (moment (F.named files.old) (F.left files.old) (F.asked files.old) (F.faults files.old) (O.taken out.old))
        (moment (F.named files.new) (F.left files.new) (F.asked files.new) (F.faults files.new) (O.taken out.new)) result }
    ensures at_end { IsReadToItsEnd result → IsReadOutIfNamed (F.named files.old) (F.left files.new) }
    ensures reads { CountsReadFault result (F.faults files.old) (F.faults files.new) }
    ensures writes { CountsFault (result ≡ Cause.WriteFault) (O.faults out.old) (O.faults out.new) }
{
    let Ok(mut crew) = Crew::new(alloc, graph, plan, request.workers) else {
        return Cause::NoMemory;
    };
    decode_with(rt, alloc, request, graph, plan, &mut crew, files, out, gate)
}

/// Decodes the shots of the file that is named by a crew for a graph and a plan of it: the head is written, the shots are
/// read, and their rows are written.
fn decode_with<F: Files, O: Sink, G: Gate, R: Threads + Sync>(
    rt: &R,
    alloc: Global,
    request: &Decoding<'_>,
    graph: &Graph,
    plan: &Plan,
    crew: &mut Crew<'_>,
    files: &mut F,
    out: &mut O,
    gate: &G,
) -> Cause
    requires crew { crew.old ≡ record { graph = graph.now; plan = plan.now; workers = request.now.workers } }
    requires window { IsWithin windows request.now.window }
    requires room { HasRoom (F.asked files.old) 16 }
    ensures ends { EndsOn (plain_decoding request.now) graph.now plan.now
        (moment (F.named files.old) (F.left files.old) (F.asked files.old) (F.faults files.old) (O.taken out.old))
        (moment (F.named files.new) (F.left files.new) (F.asked files.new) (F.faults files.new) (O.taken out.new)) result }
    ensures at_end { IsReadToItsEnd result → IsReadOutIfNamed (F.named files.old) (F.left files.new) }
    ensures reads { CountsReadFault result (F.faults files.old) (F.faults files.new) }
    ensures writes { CountsFault (result ≡ Cause.WriteFault) (O.faults out.old) (O.faults out.new) }
{
    let Ok(()) = write_head(out) else {
        return Cause::WriteFault;
    };
    let Ok(name) = String::from_str(alloc, request.shots) else {
        return Cause::NoMemory;
    };
    let Ok(()) = files.open_file(name) else {
        return Cause::ReadFault;
    };
    match decode_file(rt, alloc, request, graph, crew, files, out, gate) {
        Ok(decoded) => end_report(plan, decoded, out),
        Err(RowsFault::WriteFault) => Cause::WriteFault,
        Err(RowsFault::NoMemory) => Cause::NoMemory,
    }
}

/// Ends a report: with its last line, which counts the plan's units and fusions, if the shots were read to their end.
fn end_report<O: Sink>(plan: &Plan, decoded: Decoded, out: &mut O) -> Cause
    requires few { decoded.tally.best + decoded.tally.odd < 2 ^ 32 }
    ensures end { EndsReport plan.now decoded.end (decoded.tally.best + decoded.tally.odd) (counts_in decoded.tally) (O.taken out.old) (O.taken out.new) result }
    ensures writes { CountsFault (result ≡ Cause.WriteFault) (O.faults out.old) (O.faults out.new) }
{
    let tally = decoded.tally;
    match decoded.end {
        ShotsEnd::End => {
            let units = tally.best * u64::from(plan.units());
            let fusions = tally.best * u64::from(plan.nodes() - plan.units());
            let Ok(()) = write_done(out, tally.rows(), tally.odd, units, fusions) else {
                return Cause::WriteFault;
            };
            tally.cause()
        }
        ShotsEnd::Refused(fault) => Cause::Refused(Refusal::Shot(fault)),
        ShotsEnd::ReadFault => Cause::ReadFault,
    }
}
