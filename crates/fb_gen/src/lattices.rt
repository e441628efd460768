ghost use Rattle.std.specs.Prelude.{◌≡◌, ◌≢◌, ◌+◌, ◌*◌, ◌<◌, ◌≤◌, ◌++◌, IfOk, IfErr, OnOk, Ok, Err};
ghost use Rattle.fb_graph.specs.Limits.{most_vertices};
ghost use Rattle.fb_gen.specs.Lattice.{vertex_at, vertex_count, entry_if, is_inner, edges_from, edges_of_row, edges_of_round, lattice_edges, virtuals_of_row, virtuals_of_round, lattice_virtuals, lattice_of};

use crate::faults::GenFault;
use fb_graph::{Graph, GraphFault, MOST_VERTICES, NoMemory};
use std::alloc::Global;

const WEIGHT_WITHIN: i128 = 20;

const WEIGHT_LATER: i128 = 28;

/// How far a lattice reaches.
#[derive(Clone, Copy)]
struct Size {
    distance: u64,
    rounds: u64,
}

/// The numbers that a graph is built of.
#[derive(Drop)]
struct LatticeLists {
    edges: Vec<(u64, u64, i128)>,
    virtuals: Vec<u64>,
}

impl Size {
    /// The number of a vertex.
    fn vertex(self, round: u64, row: u64, column: u64) -> u64
        requires size { vertex_count self.distance self.rounds ≤ most_vertices }
        requires round { round < self.rounds }
        requires row { row < self.distance }
        requires column { column ≤ self.distance }
        ensures value { result ≡ vertex_at self.distance round row column }
        ensures below { result < vertex_count self.distance self.rounds }
    {
        (round * self.distance + row) * (self.distance + 1) + column
    }

    /// Whether a column is real.
    fn is_inner(self, column: u64) -> bool
        ensures { result ≡ is_inner self.distance column }
    {
        0 < column && column < self.distance
    }
}

impl LatticeLists {
    /// Adds an edge if it is wanted.
    fn push_if(&mut self, is_wanted: bool, edge: (u64, u64, i128)) -> Result<(), NoMemory>
        ensures edges { OnOk result (self.new.edges.items ≡ self.old.edges.items ++ entry_if is_wanted edge) }
        ensures virtuals { self.new.virtuals ≡ self.old.virtuals }
    {
        if is_wanted {
            return self.edges.push(edge).map_err(|_| NoMemory);
        }
        Ok(())
    }

    /// Adds the edges whose first end is this vertex.
    fn push_edges(&mut self, size: Size, round: u64, row: u64, column: u64) -> Result<(), NoMemory>
        requires size { vertex_count size.distance size.rounds ≤ most_vertices }
        requires round { round < size.rounds }
        requires row { row < size.distance }
        requires column { column ≤ size.distance }
        ensures edges { OnOk result (self.new.edges.items
            ≡ self.old.edges.items ++ edges_from size.distance size.rounds round row column) }
        ensures virtuals { self.new.virtuals ≡ self.old.virtuals }
    {
        let here = size.vertex(round, row, column);
        let below = here + (size.distance + 1);
        let later = here + size.distance * (size.distance + 1);
        let is_inner = size.is_inner(column);
        let is_last_row = row + 1 == size.distance;
        let is_last_round = round + 1 == size.rounds;
        self.push_if(column < size.distance, (here, here + 1, WEIGHT_WITHIN))?;
        self.push_if(is_inner && !is_last_row, (here, below, WEIGHT_WITHIN))?;
        self.push_if(is_inner && !is_last_round, (here, later, WEIGHT_LATER))
    }

    /// Adds the two virtual vertices of a row.
    fn push_virtuals(&mut self, size: Size, round: u64, row: u64) -> Result<(), NoMemory>
        requires size { vertex_count size.distance size.rounds ≤ most_vertices }
        requires round { round < size.rounds }
        requires row { row < size.distance }
        ensures edges { self.new.edges ≡ self.old.edges }
        ensures virtuals { OnOk result (self.new.virtuals.items
            ≡ self.old.virtuals.items ++ virtuals_of_row size.distance round row) }
    {
        let first = size.vertex(round, row, 0);
        let last = size.vertex(round, row, size.distance);
        self.virtuals.push(first)?;
        self.virtuals.push(last).map_err(|_| NoMemory)
    }

    /// Adds the edges and the virtual vertices of a row.
    fn push_row(&mut self, size: Size, round: u64, row: u64) -> Result<(), NoMemory>
        requires size { vertex_count size.distance size.rounds ≤ most_vertices }
        requires round { round < size.rounds }
        requires row { row < size.distance }
        ensures edges { OnOk result (self.new.edges.items
            ≡ self.old.edges.items ++ edges_of_row size.distance size.rounds round row) }
        ensures virtuals { OnOk result (self.new.virtuals.items
            ≡ self.old.virtuals.items ++ virtuals_of_row size.distance round row) }
    {
        self.push_virtuals(size, round, row)?;
        for column in 0..size.distance + 1 {
            self.push_edges(size, round, row, column)?;
        }
        Ok(())
    }

    /// Adds those of a round.
    fn push_round(&mut self, size: Size, round: u64) -> Result<(), NoMemory>
        requires size { vertex_count size.distance size.rounds ≤ most_vertices }
        requires round { round < size.rounds }
        ensures edges { OnOk result (self.new.edges.items
            ≡ self.old.edges.items ++ edges_of_round size.distance size.rounds round) }
        ensures virtuals { OnOk result (self.new.virtuals.items
            ≡ self.old.virtuals.items ++ virtuals_of_round size.distance round) }
    {
        for row in 0..size.distance {
            self.push_row(size, round, row)?;
        }
        Ok(())
    }
}

/// How far a lattice reaches whose number of vertices is in range. Without rows there are no rounds to walk either.
fn size_of(distance: u32, rounds: u32) -> Size
    requires { vertex_count distance rounds ≤ most_vertices }
    ensures size { vertex_count result.distance result.rounds ≤ most_vertices }
    ensures few { result.rounds ≤ most_vertices }
    ensures edges { lattice_edges result.distance result.rounds ≡ lattice_edges distance rounds }
    ensures virtuals { lattice_virtuals result.distance result.rounds ≡ lattice_virtuals distance rounds }
{
    let walked = if distance == 0 { 0 } else { rounds };
    Size {
        distance: u64::from(distance),
        rounds: u64::from(walked),
    }
}

/// The numbers of a lattice, in no more steps than a graph can have vertices.
fn parts_of(alloc: Global, size: Size) -> Result<LatticeLists, NoMemory>
    requires size { vertex_count size.distance size.rounds ≤ most_vertices }
    requires few { size.rounds ≤ most_vertices }
    ensures edges { IfOk result (λ parts. parts.edges.items ≡ lattice_edges size.distance size.rounds) }
    ensures virtuals { IfOk result (λ parts. parts.virtuals.items ≡ lattice_virtuals size.distance size.rounds) }
{
    let mut parts = LatticeLists {
        edges: Vec::new(alloc),
        virtuals: Vec::new(alloc),
    };
    for round in 0..size.rounds {
        parts.push_round(size, round)?;
    }
    Ok(parts)
}

/// How many vertices a lattice has.
fn count_vertices(distance: u32, rounds: u32) -> u128
    ensures { result ≡ vertex_count distance rounds }
{
    u128::from(rounds) * u128::from(distance) * (u128::from(distance) + 1)
}

/// The decoding graph of `rounds` rounds of a lattice of `distance` rows and `distance + 1` columns, of which the first
/// and the last are virtual. Edges weigh 20 within a round and 28 to the next round.
pub fn lattice(alloc: Global, distance: u32, rounds: u32) -> Result<Graph, GenFault>
    ensures ok { IfOk result (λ g. lattice_of distance rounds ≡ Ok g) }
    ensures err { IfErr result (λ e. e ≢ GenFault.NoMemory → lattice_of distance rounds ≡ Err e) }
{
    let count = count_vertices(distance, rounds);
    if count > u128::from(MOST_VERTICES) {
        return Err(GenFault::LatticeTooLarge);
    }
    let size = size_of(distance, rounds);
    let Ok(parts) = parts_of(alloc, size) else {
        return Err(GenFault::NoMemory);
    };
    match Graph::build(alloc, count as u64, &parts.edges, &parts.virtuals) {
        Ok(graph) => Ok(graph),
        Err(fault) => match fault {
            GraphFault::NoMemory => Err(GenFault::NoMemory),
            _ => unreachable!(),
        },
    }
}
