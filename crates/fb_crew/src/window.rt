//! The rows of some shots, made side by side.

ghost use Rattle.std.specs.Prelude.{◌≡◌, ◌*◌, ◌<◌, ◌≤◌, length, ℕ, All, IfOk, IfSome};
ghost use Rattle.fb_graph.specs.Limits.{IsShot};
ghost use Rattle.fb_plan.specs.Plans.{IsPlan, node_count, root_of};
ghost use Rattle.fb_hands.specs.Gates.{HasPassed};
ghost use Rattle.fb_hands.specs.Jobs.{IsCompleteOf};
ghost use Rattle.fb_slots.specs.Ordered.{IsByItem};
ghost use Rattle.fb_crew.specs.InternalWindows.{AreRowsOf, AreSolvedRoots, IsSorted, with_places};
ghost use Rattle.fb_crew.specs.Windows.{AreRows, IsHistoryOf, most_seats};

use crate::crew::work_all;
use crate::finished::{Finished, Worked};
use crate::here::work_here;
use crate::placed::Placed;
use crate::solver::{Solved, Solver, Tools};
use crate::sorting::{Sorted, join_rows, renumber, sort_out};
use fb_book::{Entry, MOST_AT_ONCE, MOST_WORKERS};
use fb_graph::{Components, Graph, NoMemory, Row, Shot, Whole, components};
use fb_half::both::both;
use fb_hands::Gate;
use fb_plan::{Job, Plan};
use fb_slots::Run;
use std::alloc::Global;
use std::marker::Model;
use std::thread::Threads;

/// The rows of some shots, and which worker took and gave which part of them: an entry's slot is the place of its shot.
#[derive(Drop)]
pub struct Window {
    pub rows: Vec<Row>,
    pub history: Vec<Entry>,
}

/// What solves the shots of a graph by a plan, with at most a number of workers. It is made once: it finds the graph's
/// components then, and keeps each worker's tools from one window to the next.
#[derive(Drop)]
pub struct Crew<'a> {
    graph: &'a Graph,
    plan: &'a Plan,
    parts: Components<Whole<'a>>,
    workers: u32,
    /// One for each worker. None at first, and if memory ran out while they were lent.
    tools: Option<Vec<Tools>>,
}

impl<'a> Model for Crew<'a> {
    ghost use Rattle.fb_crew.specs.Crews.{CrewValue};
    ghost use Rattle.std.specs.Prelude.{length, option_map};
    ghost use Rattle.fb_crew.specs.InternalWindows.{IsCrew};

    ghost Value = { CrewValue };

    ghost view = { λ c. record { graph = c.graph.now; plan = c.plan.now; workers = c.workers } };

    ghost invariant = { λ c. IsCrew c.graph.now c.plan.now c.parts.0.now c.workers (option_map (λ ts. length ts.items) c.tools) };
}

impl<'a> Crew<'a> {
    /// What solves the shots of the graph by the plan, with at most this number of workers.
    pub fn new(
        alloc: Global,
        graph: &'a Graph,
        plan: &'a Plan,
        workers: u32,
    ) -> Result<Crew<'a>, NoMemory>
        requires plan { IsPlan graph.now plan.now }
        requires some { 1 ≤ workers }
        requires few { workers ≤ MOST_WORKERS }
        ensures { IfOk result (λ c. c ≡ record { graph = graph.now; plan = plan.now; workers = workers }) }
    {
        let parts = components(alloc, graph)?;
        Ok(Crew {
            graph,
            plan,
            parts,
            workers,
            tools: None,
        })
    }

    /// The graph whose shots it solves.
    pub fn graph(&self) -> &'a Graph
        ensures { result.now ≡ self.now.graph }
    {
        self.graph
    }

    /// The rows of shots, and how they were made. As many workers take part as `work_all` uses for the shots that have a
    /// correction. With one worker everything is done on the calling thread.
    pub fn decode_window<G: Gate, R: Threads + Sync>(
        &mut self,
        rt: &R,
        alloc: Global,
        shots: &[Shot],
        gate: &G,
    ) -> Result<Window, NoMemory>
        requires shots { All (IsShot self.old.graph) shots.now }
        requires few { length shots.now ≤ MOST_AT_ONCE }
        ensures rows { IfOk result (λ w. AreRows self.old.graph shots.now w.rows.items) }
        ensures history { IfOk result (λ w. IsHistoryOf self.old.plan self.old.workers w.rows.items w.history.items) }
        ensures passed { IfOk result (λ w. All (HasPassed (G.passed gate.now)) w.history.items) }
        ensures same { self.new ≡ self.old }
    {
        let tools = match self.tools.take() {
            Some(tools) => tools,
            None => empty_tools(alloc, self.workers)?,
        };
        let (window, tools) = solve_window(
            rt,
            alloc,
            self.graph,
            self.plan,
            &mut self.parts,
            self.workers,
            shots,
            tools,
            gate,
        )?;
        self.tools = Some(tools);
        Ok(window)
    }

    /// The tools of its workers, which count what is done with them. None before the first window, and if memory ran out
    /// while they were lent.
    pub fn tools(&self) -> Option<&[Tools]>
        ensures { IfSome result (λ tools. length tools.now ≡ self.now.workers) }
    {
        match &self.tools {
            Some(tools) => Some(tools.as_slice()),
            None => None,
        }
    }
}

/// The rows of shots and how they were made by this number of workers, and the workers' tools.
fn solve_window<G: Gate, R: Threads + Sync>(
    rt: &R,
    alloc: Global,
    graph: &Graph,
    plan: &Plan,
    parts: &mut Components<Whole<'_>>,
    workers: u32,
    shots: &[Shot],
    tools: Vec<Tools>,
    gate: &G,
) -> Result<(Window, Vec<Tools>), NoMemory>
    requires plan { IsPlan graph.now plan.now }
    requires parts { parts.old.0.now ≡ graph.now }
    requires workers { (1 ≤ workers) × (workers ≤ MOST_WORKERS) × (length tools.items ≡ workers) }
    requires shots { All (IsShot graph.now) shots.now }
    requires few { length shots.now ≤ MOST_AT_ONCE }
    ensures rows { IfOk result (λ r. AreRows graph.now shots.now r.0.rows.items) }
    ensures history { IfOk result (λ r. IsHistoryOf plan.now workers r.0.rows.items r.0.history.items) }
    ensures passed { IfOk result (λ r. All (HasPassed (G.passed gate.now)) r.0.history.items) }
    ensures tools { IfOk result (λ r. length r.1.items ≡ workers) }
    ensures same { parts.new ≡ parts.old }
{
    let Sorted { odd, even, places } = sort_out(alloc, parts, shots)?;
    let job = Job::new(graph, plan, even);
    let solver = Solver::new(&job);
    let placed = Placed {
        gate,
        places: places.as_slice(),
    };
    let Worked { run, tools, .. } = work_all(rt, alloc, &job, workers, &solver, &placed, tools)?;
    let window = join_window(alloc, &job, shots, odd.as_slice(), places.as_slice(), run);
    both(window, tools)
}

/// The rows of shots by at most this number of workers, and how they were made. What a `Crew` does for each of its windows,
/// but with tools for this one alone.
pub fn decode_window<G: Gate, R: Threads + Sync>(
    rt: &R,
    alloc: Global,
    graph: &Graph,
    plan: &Plan,
    parts: &mut Components<Whole<'_>>,
    shots: &[Shot],
    workers: u32,
    gate: &G,
) -> Result<Window, NoMemory>
    requires plan { IsPlan graph.now plan.now }
    requires parts { parts.old.0.now ≡ graph.now }
    requires shots { All (IsShot graph.now) shots.now }
    requires few { length shots.now ≤ MOST_AT_ONCE }
    requires workers { (1 ≤ workers) × (workers ≤ MOST_WORKERS) }
    ensures rows { IfOk result (λ w. AreRows graph.now shots.now w.rows.items) }
    ensures history { IfOk result (λ w. IsHistoryOf plan.now workers w.rows.items w.history.items) }
    ensures passed { IfOk result (λ w. All (HasPassed (G.passed gate.now)) w.history.items) }
    ensures same { parts.new ≡ parts.old }
{
    let tools = empty_tools(alloc, workers)?;
    let (window, _tools) = solve_window(
        rt, alloc, graph, plan, parts, workers, shots, tools, gate,
    )?;
    Ok(window)
}

/// The rows of shots, and how they were made: all on the calling thread, as worker 0.
pub fn decode_here(
    alloc: Global,
    graph: &Graph,
    plan: &Plan,
    parts: &mut Components<Whole<'_>>,
    shots: &[Shot],
) -> Result<Window, NoMemory>
    requires plan { IsPlan graph.now plan.now }
    requires parts { parts.old.0.now ≡ graph.now }
    requires shots { All (IsShot graph.now) shots.now }
    requires few { length shots.now ≤ MOST_AT_ONCE }
    ensures rows { IfOk result (λ w. AreRows graph.now shots.now w.rows.items) }
    ensures history { IfOk result (λ w. IsHistoryOf plan.now 0 w.rows.items w.history.items) }
    ensures same { parts.new ≡ parts.old }
{
    let Sorted { odd, even, places } = sort_out(alloc, parts, shots)?;
    let job = Job::new(graph, plan, even);
    let solver = Solver::new(&job);
    let mut tools = Tools::new(alloc);
    let Finished { run, .. } = work_here(alloc, &job, &solver, &mut tools)?;
    join_window(alloc, &job, shots, odd.as_slice(), places.as_slice(), run)
}

/// The rows of all shots and how they were made, put together of the run of a job of those that have a correction.
fn join_window(
    alloc: Global,
    job: &Job<'_>,
    shots: &[Shot],
    odd: &[Option<u32>],
    places: &[u32],
    run: Run<Solved<'_>>,
) -> Result<Window, NoMemory>
    requires plan { IsPlan job.now.graph job.now.plan }
    requires sorted { IsSorted job.now.graph shots.now odd.now job.now.shots places.now }
    requires roots { AreSolvedRoots job.now run.roots }
    requires history { IsCompleteOf job.now run.history }
    requires order { IsByItem (node_count job.now.plan) run.history }
    ensures made { (workers : ℕ) → All (λ e. e.worker ≤ workers) run.entry.history
        → All (λ e. e.worker < most_seats workers (length job.now.shots * job.now.plan.units)) run.entry.history → IfOk result (λ w.
        AreRows job.now.graph shots.now w.rows.items × IsHistoryOf job.now.plan workers w.rows.items w.history.items) }
    ensures places { IfOk result (λ w. w.history.items ≡ with_places places.now run.entry.history) }
{
    let _shots = shots;
    let (roots, mut history) = run.into_parts();
    let solved = rows_of(alloc, roots)?;
    let rows = join_rows(alloc, odd, solved)?;
    renumber(&mut history, places);
    Ok(Window { rows, history })
}

/// Tools for each worker, with nothing in them.
fn empty_tools(alloc: Global, workers: u32) -> Result<Vec<Tools>, NoMemory>
    ensures { IfOk result (λ tools. length tools.items ≡ workers) }
{
    let mut tools = Vec::with_capacity(alloc, workers as usize)?;
    for _ in 0..workers {
        tools.push(Tools::new(alloc))?;
    }
    Ok(tools)
}

/// The rows of a job's shots, by the solved parts of the plan's root.
fn rows_of(alloc: Global, roots: Vec<Solved<'_>>) -> Result<Vec<Row>, NoMemory>
    requires { All (λ root. root.node ≡ root_of root.job.plan) roots.items }
    ensures { IfOk result (λ rows. AreRowsOf roots.entry.items rows.items) }
{
    let mut rows = Vec::with_capacity(alloc, roots.len())?;
    for root in roots {
        rows.push(root.into_row())?;
    }
    Ok(rows)
}
