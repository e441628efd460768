//! The parts of a graph, each made from plain numbers.

ghost use Rattle.std.specs.Prelude.{◌≡◌, ◌≢◌, ℕ, ◌+◌, ◌<◌, ◌≤◌, ◌^◌, ◌==◌, ◌&&◌, not, List, [], length, vec_len, map, get_or, filter, All, IfOk, IfErr, OnOk, None, Some, ℤ, false};
ghost use Rattle.std.specs.List.{range_with_len};
ghost use Rattle.std.specs.Bool.{beq};
ghost use Rattle.fb_graph.specs.Parity.{is_in};
ghost use Rattle.fb_graph.specs.Adjacency.{edges_at};
ghost use Rattle.fb_graph.specs.InternalLayout.{with_edge};
ghost use Rattle.fb_graph.specs.Limits.{IsEdge, most_edges};
ghost use Rattle.fb_graph.specs.GraphRules.{edge_fault, edges_fault, virtuals_fault, edge_from};

use crate::faults::{GraphFault, NoMemory};
use crate::graph::MOST_WEIGHT;
use crate::lists::NumberList;
use crate::parts::Edge;
use std::alloc::Global;

/// The first rule that edge `i` breaks in a graph of `n` vertices.
pub fn judge_edge(n: u32, i: usize, edge: (u64, u64, i128)) -> Option<GraphFault>
    ensures { result ≡ edge_fault n i edge }
{
    let (first, second, weight) = edge;
    let place = i as u64;
    if u64::from(n) <= first || u64::from(n) <= second {
        Some(GraphFault::EndOutOfRange(place))
    } else if first == second {
        Some(GraphFault::SelfLoop(place))
    } else if weight.unsigned_abs() % 2 == 1 {
        Some(GraphFault::OddWeight(place))
    } else if weight > i128::from(MOST_WEIGHT) {
        Some(GraphFault::WeightTooLarge(place))
    } else if weight < -i128::from(MOST_WEIGHT) {
        Some(GraphFault::WeightTooSmall(place))
    } else {
        None
    }
}

/// The edge of these numbers, or the first rule that they break.
fn checked_edge(n: u32, i: usize, edge: (u64, u64, i128)) -> Result<Edge, GraphFault>
    ensures good { OnOk result (edge_fault n i edge ≡ None) }
    ensures value { IfOk result (λ e. e ≡ edge_from edge) }
    ensures each { IfOk result (IsEdge n) }
    ensures err { IfErr result (λ fault. edge_fault n i edge ≡ Some fault) }
{
    if let Some(fault) = judge_edge(n, i, edge) {
        return Err(fault);
    }
    let (first, second, weight) = edge;
    Ok(Edge {
        first: first as u32,
        second: second as u32,
        weight: weight.unsigned_abs() as u64,
    })
}

/// The edges, or the first rule that one of them breaks.
pub fn build_edges(
    alloc: Global,
    n: u32,
    edges: &[(u64, u64, i128)],
) -> Result<Vec<Edge>, GraphFault>
    ensures good { OnOk result (edges_fault n 0 edges.now ≡ None) }
    ensures items { IfOk result (λ v. v.items ≡ map edge_from edges.now) }
    ensures each { IfOk result (λ v. All (IsEdge n) v.items) }
    ensures err { IfErr result (λ e. e ≢ GraphFault.NoMemory → edges_fault n 0 edges.now ≡ Some e) }
{
    let mut built = Vec::new(alloc);
    for (i, edge) in edges.iter().enumerate() {
        let edge = checked_edge(n, i, *edge)?;
        built.push(edge)?;
    }
    Ok(built)
}

/// A flag for each vertex, set if it is virtual, or the first rule that a virtual vertex breaks.
pub fn mark_virtuals(alloc: Global, n: u32, virtuals: &[u64]) -> Result<Vec<bool>, GraphFault>
    ensures good { IfOk result (λ v. virtuals_fault n [] 0 virtuals.now ≡ None) }
    ensures len { IfOk result (λ v. length v.items ≡ n) }
    ensures each { IfOk result (λ v. (k : ℕ) → k < n → get_or v.items k false ≡ is_in virtuals.now k) }
    ensures below { IfOk result (λ v. All (λ u. u < n) virtuals.now) }
    ensures err { IfErr result (λ e. e ≢ GraphFault.NoMemory → virtuals_fault n [] 0 virtuals.now ≡ Some e) }
{
    let mut flags = vec![in alloc; false; n as usize]?;
    for (i, vertex) in virtuals.iter().enumerate() {
        if u64::from(n) <= *vertex {
            return Err(GraphFault::VirtualOutOfRange(i as u64));
        }
        if flags[*vertex as usize] {
            return Err(GraphFault::VirtualRepeated(i as u64));
        }
        flags[*vertex as usize] = true;
    }
    Ok(flags)
}

/// The numbers of the vertices or edges whose flag is as wanted, rising.
#[tactic(auto, using(crate::proofs::BuildSteps::range_steps))]
pub fn numbers_flagged(alloc: Global, flags: &[bool], wanted: bool) -> Result<NumberList, NoMemory>
    requires { length flags.now ≤ most_edges }
    ensures { IfOk result (λ v. v ≡ filter (λ k. beq (get_or flags.now k false) wanted) (range_with_len 0 (length flags.now))) }
{
    let mut found = NumberList::from_vec(Vec::new(alloc));
    for (number, flag) in flags.iter().enumerate() {
        found.push_if(*flag == wanted, number as u32)?;
    }
    Ok(found)
}

/// For each vertex the numbers of the edges at it, rising.
#[tactic(auto, using(crate::proofs::BuildSteps::adjacent_steps))]
pub fn edges_by_vertex(alloc: Global, n: u32, edges: &[Edge]) -> Result<Vec<NumberList>, NoMemory>
    requires count { length edges.now ≤ most_edges }
    requires each { All (IsEdge n) edges.now }
    ensures len { IfOk result (λ v. length v.items ≡ n) }
    ensures each { IfOk result (λ a. (v : ℕ) → v < n → get_or a.items v [] ≡ edges_at edges.now (length edges.now) v) }
{
    let mut adjacent = empty_lists(alloc, n)?;
    for (k, edge) in edges.iter().enumerate() {
        put_edge(&mut adjacent, *edge, k as u32)?;
    }
    Ok(adjacent)
}

/// Puts the edge's number at the end of the lists of its two ends.
fn put_edge(adjacent: &mut Vec<NumberList>, edge: Edge, k: u32) -> Result<(), NoMemory>
    requires first { edge.first < vec_len adjacent.old }
    requires second { edge.second < vec_len adjacent.old }
    requires apart { edge.first ≢ edge.second }
    ensures { OnOk result (adjacent.new.items ≡ with_edge adjacent.old.items edge k) }
{
    adjacent[edge.first as usize].push(k)?;
    adjacent[edge.second as usize].push(k)?;
    Ok(())
}

/// A list of `n` empty lists.
fn empty_lists(alloc: Global, n: u32) -> Result<Vec<NumberList>, NoMemory>
    ensures len { IfOk result (λ v. length v.items ≡ n) }
    ensures each { IfOk result (λ a. (v : ℕ) → v < n → get_or a.items v [] ≡ []) }
{
    let mut lists = Vec::new(alloc);
    for i in 0..n {
        lists.push(NumberList::from_vec(Vec::new(alloc)))?;
    }
    Ok(lists)
}
