//! Loads of a graph's edges that are kept from row to row.

ghost use Rattle.std.specs.Prelude.{◌≡◌, ℕ, ◌<◌, All, IfOk, length, replicate, slice_index};
ghost use Rattle.fb_graph.specs.Problem.{edge_at};
ghost use Rattle.fb_graph.specs.ShotGraphs.{shot_graph};
ghost use Rattle.fb_verify.specs.InternalLoads.{IsLeastOver, lesser_edge, load_in};

use crate::shares::Share;
use fb_graph::{Graph, NoMemory, Shot};
use std::alloc::Global;
use std::marker::Model;

/// A load for each edge of a graph, all of them 0 from one call to the next. Contracts see the number of edges.
#[derive(Drop)]
pub(crate) struct LoadTable {
    loads: Vec<u128>,
}

impl Model for LoadTable {
    ghost use Rattle.std.specs.Prelude.{◌≡◌, ℕ, length, replicate};

    ghost Value = { ℕ };

    ghost view = { λ t. length t.loads.items };

    ghost invariant = { λ t. t.loads.items ≡ replicate (length t.loads.items) 0 };
}

impl LoadTable {
    /// A table for this number of edges.
    pub fn new(alloc: Global, edges: u32) -> Result<LoadTable, NoMemory>
        ensures { IfOk result (λ t. t ≡ edges) }
    {
        let loads = vec![in alloc; 0u128; edges as usize]?;
        Ok(LoadTable { loads })
    }

    /// The least edge whose shares together are above what it weighs for the shot without its sign. It takes time by
    /// the number of shares.
    pub fn first_above(&mut self, graph: &Graph, shot: &Shot, shares: &[Share]) -> Option<u32>
        requires size { self.old ≡ length graph.now.edges }
        requires within { All (λ s. s.edge < length graph.now.edges) shares.now }
        ensures least { IsLeastOver (λ k. (edge_at (shot_graph graph.now shot.now).edges k).weight)
            (load_in shares.now) shares.now result }
        ensures same { self.new ≡ self.old }
    {
        let loads = self.loads.as_mut_slice();
        add_loads(loads, shares);
        let first = least_above(graph, shot, loads, shares);
        clear_loads(loads, shares);
        first
    }
}

/// Adds what the shares add to the load of each edge.
fn add_loads(loads: &mut [u128], shares: &[Share])
    requires zeros { loads.old ≡ replicate (length loads.old) 0 }
    requires within { All (λ s. s.edge < length loads.old) shares.now }
    ensures { (k : ℕ) → k < length loads.old → slice_index loads.new k ≡ load_in shares.now k }
{
    for share in shares {
        loads[share.edge as usize] += u128::from(share.value);
    }
}

/// The least edge of the shares whose load is above what it weighs for the shot without its sign.
fn least_above(graph: &Graph, shot: &Shot, loads: &[u128], shares: &[Share]) -> Option<u32>
    requires size { length loads.now ≡ length graph.now.edges }
    requires within { All (λ s. s.edge < length graph.now.edges) shares.now }
    ensures { IsLeastOver (λ k. (edge_at (shot_graph graph.now shot.now).edges k).weight)
        (slice_index loads.now) shares.now result }
{
    let mut least: Option<u32> = None;
    for share in shares {
        let edge = share.edge;
        if loads[edge as usize] > u128::from(shot.absolute_weight(graph, edge)) {
            least = Some(lesser(least, edge));
        }
    }
    least
}

/// The lesser one of two edges.
fn lesser(edge: Option<u32>, other: u32) -> u32
    ensures { result ≡ lesser_edge edge other }
{
    match edge {
        Some(edge) if edge < other => edge,
        _ => other,
    }
}

/// Makes the loads of the shares' edges 0.
fn clear_loads(loads: &mut [u128], shares: &[Share])
    requires within { All (λ s. s.edge < length loads.old) shares.now }
    requires others { (k : ℕ) → k < length loads.old → load_in shares.now k ≡ 0
        → slice_index loads.old k ≡ 0 }
    ensures { loads.new ≡ replicate (length loads.old) 0 }
{
    for share in shares {
        loads[share.edge as usize] = 0;
    }
}
