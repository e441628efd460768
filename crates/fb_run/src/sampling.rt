//! The command `sample`.

ghost use Rattle.std.specs.Prelude.{◌≡◌, ◌+◌, ◌*◌, ◌^◌, ◌<◌, ◌≤◌, ◌+ℤ◌, length, All, IfOk, OnOk, Ok};
ghost use Rattle.fb_book.specs.declared.limits.TheConstants.{MOST_AT_ONCE};
ghost use Rattle.fb_gen.specs.Drawing.{state_after};
ghost use Rattle.fb_gen.specs.Lattice.{lattice_of};
ghost use Rattle.fb_gen.specs.TimePlan.{time_plan_of};
ghost use Rattle.fb_graph.specs.Limits.{IsShot, most_vertices};
ghost use Rattle.fb_plan.specs.Plans.{IsPlan};
ghost use Rattle.fb_ports.specs.Causes.{CountsFault};
ghost use Rattle.fb_crew.specs.Windows.{defect_count};
ghost use Rattle.fb_run.specs.SampleEndings.{SampleEnds};
ghost use Rattle.fb_run.specs.InternalCauses.{cause_of_sample};
ghost use Rattle.fb_run.specs.InternalSums.{HasLowWeight, IsLow};
ghost use Rattle.fb_run.specs.Samples.{HaveSums, drawn_shots, weight_in, weights_in};
ghost use Rattle.fb_request.specs.PlainRequests.{plain_sampling};
ghost use Rattle.fb_request.specs.Requests.{IsSampleInRanges};

use crate::sample_text::{Sums, write_sample};
use fb_crew::{Crew, Gate};
use fb_exits::{Cause, Refusal};
use fb_gen::{Draws, GenFault, draw, lattice, time_plan};
use fb_graph::{Graph, NoMemory, Row, Shot};
use fb_plan::Plan;
use fb_ports::{RowsFault, Sink};
use fb_request::Sampling;
use std::alloc::Global;
use std::thread::Threads;

/// Draws shots on a lattice, decodes them by a plan by time, and writes how many defects they have and what their
/// corrections weigh. Nothing is written before the last shot is decoded.
pub fn sample<O: Sink, G: Gate, R: Threads + Sync>(
    rt: &R,
    alloc: Global,
    request: &Sampling,
    out: &mut O,
    gate: &G,
) -> Cause
    requires { IsSampleInRanges (plain_sampling request.now) }
    ensures ends { SampleEnds (plain_sampling request.now) (O.taken out.old) (O.taken out.new) result }
    ensures writes { CountsFault (result ≡ Cause.WriteFault) (O.faults out.old) (O.faults out.new) }
{
    match lattice(alloc, request.distance, request.rounds) {
        Ok(graph) => sample_lattice(rt, alloc, request, &graph, out, gate),
        Err(fault) => cause_of_sample(fault),
    }
}

/// Draws the shots of a sample on its lattice, decodes them by a plan by time, and writes their sums.
fn sample_lattice<O: Sink, G: Gate, R: Threads + Sync>(
    rt: &R,
    alloc: Global,
    request: &Sampling,
    graph: &Graph,
    out: &mut O,
    gate: &G,
) -> Cause
    requires ranges { IsSampleInRanges (plain_sampling request.now) }
    requires lattice { lattice_of request.now.distance request.now.rounds ≡ Ok graph.now }
    ensures ends { SampleEnds (plain_sampling request.now) (O.taken out.old) (O.taken out.new) result }
    ensures writes { CountsFault (result ≡ Cause.WriteFault) (O.faults out.old) (O.faults out.new) }
{
    let plan = time_plan(
        alloc,
        graph,
        request.distance,
        request.rounds,
        request.units,
    );
    match plan {
        Ok(plan) => sample_by(rt, alloc, request, graph, &plan, out, gate),
        Err(fault) => cause_of_sample(fault),
    }
}

/// Draws the shots of a sample on its lattice, decodes them by its plan, and writes their sums.
fn sample_by<O: Sink, G: Gate, R: Threads + Sync>(
    rt: &R,
    alloc: Global,
    request: &Sampling,
    graph: &Graph,
    plan: &Plan,
    out: &mut O,
    gate: &G,
) -> Cause
    requires ranges { IsSampleInRanges (plain_sampling request.now) }
    requires lattice { lattice_of request.now.distance request.now.rounds ≡ Ok graph.now }
    requires by_time { time_plan_of request.now.distance request.now.rounds request.now.units ≡ Ok plan.now }
    requires plan { IsPlan graph.now plan.now }
    ensures ends { SampleEnds (plain_sampling request.now) (O.taken out.old) (O.taken out.new) result }
    ensures writes { CountsFault (result ≡ Cause.WriteFault) (O.faults out.old) (O.faults out.new) }
{
    let Ok(sums) = sample_on(rt, alloc, request, graph, plan, gate) else {
        return Cause::NoMemory;
    };
    match write_sample(alloc, request, plan, sums, out) {
        Ok(()) => Cause::Done,
        Err(RowsFault::WriteFault) => Cause::WriteFault,
        Err(RowsFault::NoMemory) => Cause::NoMemory,
    }
}

/// How a sample ends whose lattice or plan can't be made.
fn cause_of_sample(fault: GenFault) -> Cause
    ensures { result ≡ cause_of_sample fault }
{
    match fault {
        GenFault::LatticeTooLarge | GenFault::TooFewRounds => {
            Cause::Refused(Refusal::Sample(fault))
        }
        GenFault::NoMemory => Cause::NoMemory,
    }
}

/// Draws the shots on the graph and decodes them by the plan, a window at a time.
fn sample_on<G: Gate, R: Threads + Sync>(
    rt: &R,
    alloc: Global,
    request: &Sampling,
    graph: &Graph,
    plan: &Plan,
    gate: &G,
) -> Result<Sums, NoMemory>
    requires plan { IsPlan graph.now plan.now }
    requires ranges { IsSampleInRanges (plain_sampling request.now) }
    ensures { IfOk result (λ sums. HaveSums graph.now request.now.rate request.now.start request.now.shots sums.defects sums.weight) }
{
    let mut crew = Crew::new(alloc, graph, plan, request.workers)?;
    sample_with(rt, alloc, request, graph, &mut crew, gate)
}

/// Draws the shots on the graph and decodes them by a crew for it, a window at a time.
fn sample_with<G: Gate, R: Threads + Sync>(
    rt: &R,
    alloc: Global,
    request: &Sampling,
    graph: &Graph,
    crew: &mut Crew<'_>,
    gate: &G,
) -> Result<Sums, NoMemory>
    requires crew { crew.old.graph ≡ graph.now }
    requires ranges { IsSampleInRanges (plain_sampling request.now) }
    ensures { IfOk result (λ sums. HaveSums graph.now request.now.rate request.now.start request.now.shots sums.defects sums.weight) }
{
    graph.limits();
    let mut draws = Draws::new(request.start);
    let mut sums = Sums {
        defects: 0,
        weight: 0,
    };
    let mut drawn = 0;
    while drawn < request.shots {
        let count = request.window.min(request.shots - drawn);
        let shots = draw_window(alloc, &mut draws, request.rate, graph, count)?;
        let window = crew.decode_window(rt, alloc, shots.as_slice(), gate)?;
        sums = sums.with_window(shots.as_slice(), window.rows.as_slice());
        drawn += count;
    }
    Ok(sums)
}

/// The next `count` shots that are drawn on a graph.
fn draw_window(
    alloc: Global,
    draws: &mut Draws,
    rate: u32,
    graph: &Graph,
    count: u32,
) -> Result<Vec<Shot>, NoMemory>
    ensures shots { IfOk result (λ shots. shots.items ≡ drawn_shots graph.now rate draws.old count) }
    ensures each { IfOk result (λ shots. All (IsShot graph.now) shots.items) }
    ensures many { IfOk result (λ shots. length shots.items ≡ count) }
    ensures state { OnOk result (draws.new ≡ state_after draws.old (count * length graph.now.edges)) }
{
    let mut shots = Vec::with_capacity(alloc, count as usize)?;
    for _ in 0..count {
        shots.push(draw(alloc, draws, rate, graph)?)?;
    }
    Ok(shots)
}

impl Sums {
    /// The sums with those of further shots and their rows.
    fn with_window(self, shots: &[Shot], rows: &[Row]) -> Sums
        requires shots { length shots.now ≤ MOST_AT_ONCE }
        requires rows { length rows.now ≤ MOST_AT_ONCE }
        requires low { All HasLowWeight rows.now }
        requires defects { self.defects ≤ 2 ^ 60 }
        requires weight { IsLow (2 ^ 100) self.weight }
        ensures defects { result.defects ≡ self.defects + defect_count shots.now }
        ensures weight { result.weight ≡ self.weight +ℤ weights_in rows.now }
        ensures few_defects { result.defects ≤ self.defects + most_vertices * length shots.now }
        ensures low_weight { IsLow (2 ^ 64 * length rows.now) (weights_in rows.now) }
    {
        Sums {
            defects: self.defects + count_defects(shots),
            weight: self.weight + add_weights(rows),
        }
    }
}

/// How many defects shots have.
fn count_defects(shots: &[Shot]) -> u64
    requires { length shots.now ≤ MOST_AT_ONCE }
    ensures sum { result ≡ defect_count shots.now }
    ensures limit { result ≤ most_vertices * length shots.now }
{
    let mut count = 0;
    for shot in shots {
        count += u64::from(shot.len());
    }
    count
}

/// What the corrections of rows weigh.
fn add_weights(rows: &[Row]) -> i128
    requires few { length rows.now ≤ MOST_AT_ONCE }
    requires low { All HasLowWeight rows.now }
    ensures sum { result ≡ weights_in rows.now }
    ensures limit { IsLow (2 ^ 64 * length rows.now) result }
{
    let mut sum = 0;
    for row in rows {
        sum += weight_of(row);
    }
    sum
}

/// What the correction of a row weighs.
fn weight_of(row: &Row) -> i128
    ensures { result ≡ weight_in row.now }
{
    match row {
        Row::Best { weight, .. } => *weight,
        Row::Odd(_) => 0,
    }
}
