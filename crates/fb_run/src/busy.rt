//! The shots of a window that need a worker, and their rows put together with those of the others.

ghost use Rattle.std.specs.Prelude.{◌≡◌, ◌≤◌, pos, [], length, map, filter, count_by, All, IfOk};
ghost use Rattle.fb_book.specs.declared.limits.TheConstants.{MOST_AT_ONCE};
ghost use Rattle.fb_crew.specs.Windows.{AreRows};
ghost use Rattle.fb_graph.specs.Limits.{IsShot};
ghost use Rattle.fb_run.specs.InternalBusy.{is_busy_for, rows_in_places};

use fb_crew::{Crew, Gate, Window};
use fb_graph::{CutList, Graph, NoMemory, NumberList, Row, Shot};
use std::alloc::Global;
use std::thread::Threads;

/// The busy shots of a window, and for each of its shots whether it is busy. A shot is busy if it has a defect or an edge of
/// negative weight. The row of every other shot is empty.
#[derive(Drop)]
struct Parted {
    busy: Vec<Shot>,
    is_busy: Vec<bool>,
}

/// The rows of shots. Only the busy ones are given to the crew, which isn't called if there are none.
pub fn decode_busy<G: Gate, R: Threads + Sync>(
    rt: &R,
    alloc: Global,
    crew: &mut Crew<'_>,
    shots: Vec<Shot>,
    gate: &G,
) -> Result<Vec<Row>, NoMemory>
    requires shots { All (IsShot crew.old.graph) shots.items }
    requires few { length shots.items ≤ MOST_AT_ONCE }
    ensures rows { IfOk result (λ rows. AreRows crew.old.graph shots.items rows.items) }
    ensures same { crew.new ≡ crew.old }
{
    let graph = crew.graph();
    graph.limits();
    let Parted { busy, is_busy } = part_shots(alloc, graph, shots)?;
    let solved = decode_some(rt, alloc, crew, busy.as_slice(), gate)?;
    join_rows(alloc, is_busy.as_slice(), solved)
}

/// The rows of shots by the crew, which isn't called if there are none.
fn decode_some<G: Gate, R: Threads + Sync>(
    rt: &R,
    alloc: Global,
    crew: &mut Crew<'_>,
    shots: &[Shot],
    gate: &G,
) -> Result<Vec<Row>, NoMemory>
    requires shots { All (IsShot crew.old.graph) shots.now }
    requires few { length shots.now ≤ MOST_AT_ONCE }
    ensures rows { IfOk result (λ rows. AreRows crew.old.graph shots.now rows.items) }
    ensures same { crew.new ≡ crew.old }
{
    if shots.is_empty() {
        return Ok(Vec::new(alloc));
    }
    let Window { rows, .. } = crew.decode_window(rt, alloc, shots, gate)?;
    Ok(rows)
}

/// Takes the busy shots out of a window. No shot is copied.
fn part_shots(alloc: Global, graph: &Graph, shots: Vec<Shot>) -> Result<Parted, NoMemory>
    requires { All (IsShot graph.now) shots.items }
    ensures busy { IfOk result (λ p. p.busy.items ≡ filter (is_busy_for graph.now) shots.items) }
    ensures each { IfOk result (λ p. p.is_busy.items ≡ map (is_busy_for graph.now) shots.items) }
{
    let mut parted = Parted {
        busy: Vec::new(alloc),
        is_busy: Vec::with_capacity(alloc, shots.len())?,
    };
    for shot in shots {
        let busy = is_busy(graph, &shot);
        parted.is_busy.push(busy)?;
        if busy {
            parted.busy.push(shot)?;
        }
    }
    Ok(parted)
}

/// Whether a shot has a defect or an edge of negative weight.
fn is_busy(graph: &Graph, shot: &Shot) -> bool
    requires { IsShot graph.now shot.now }
    ensures { result ≡ is_busy_for graph.now shot.now }
{
    !shot.is_empty() || shot.base(graph) != 0
}

/// The rows of all shots: these in the places of the busy ones, in their order, and empty ones in the others.
fn join_rows(alloc: Global, is_busy: &[bool], solved: Vec<Row>) -> Result<Vec<Row>, NoMemory>
    requires { length solved.items ≡ count_by (λ b. b) is_busy.now }
    ensures { IfOk result (λ rows. rows.items ≡ rows_in_places is_busy.now solved.items) }
{
    let mut rows = Vec::with_capacity(alloc, is_busy.len())?;
    let mut rest = solved.into_iter();
    for busy in is_busy {
        let row = if *busy {
            match rest.next() {
                Some(row) => row,
                None => unreachable!(),
            }
        } else {
            empty_row(alloc)
        };
        rows.push(row)?;
    }
    Ok(rows)
}

/// The row of a shot without a defect and without an edge of negative weight.
fn empty_row(alloc: Global) -> Row
    ensures { result ≡ Row.Best [] (pos 0) (pos 0) [] }
{
    Row::Best {
        edges: NumberList::from_vec(Vec::new(alloc)),
        base: 0,
        weight: 0,
        cuts: CutList::new(alloc),
    }
}
