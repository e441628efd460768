//! Which edges weigh less than 0, and at which vertices an odd number of them end.

ghost use Rattle.std.specs.Prelude.{◌≡◌, ◌*◌, ◌<◌, ◌≤◌, ℕ, ℤ, length, map, sum_by, All, IfOk};
ghost use Rattle.std.specs.Int.{is_negative};
ghost use Rattle.fb_graph.specs.Problem.{edge_at};
ghost use Rattle.fb_graph.specs.Limits.{IsChange, IsEdge, most_edges, most_weight, signed_weight, turned_by, turned_edges};
ghost use Rattle.fb_graph.specs.Signs.{shortfall};
ghost use Rattle.fb_graph.specs.InternalLayout.{AreOddEnds, AreSigns};

use crate::building::numbers_flagged;
use crate::faults::NoMemory;
use crate::graph::Graph;
use crate::lists::NumberList;
use crate::parts::Edge;
use crate::printed::odd_ones;
use std::alloc::Global;

/// What a graph keeps of the signs of its weights, made once.
#[derive(Debug, Drop)]
pub struct Signs {
    /// For each edge, whether it weighs less than 0.
    pub flags: Vec<bool>,
    /// The edges that weigh less than 0, rising.
    pub negatives: NumberList,
    /// The real vertices at which an odd number of them end, rising.
    pub turned: NumberList,
    /// What they weigh together, without the sign.
    pub total: u64,
}

/// The signs of the given weights. The edges are those of the given numbers; a flag is set for each virtual vertex.
pub fn signs_of(
    alloc: Global,
    given: &[(u64, u64, i128)],
    edges: &[Edge],
    virtuals: &[bool],
) -> Result<Signs, NoMemory>
    requires few { length given.now ≤ most_edges }
    requires count { length edges.now ≡ length given.now }
    requires each { All (IsEdge (length virtuals.now)) edges.now }
    ensures { IfOk result (AreSigns given.now edges.now virtuals.now) }
{
    let flags = below_zero(alloc, given)?;
    let negatives = numbers_flagged(alloc, &flags, true)?;
    let turned = odd_ends(alloc, edges, virtuals, negatives.as_slice())?;
    let total = weight_together(edges, negatives.as_slice());
    Ok(Signs {
        flags,
        negatives,
        turned,
        total,
    })
}

/// A flag for each edge, set if it weighs less than 0.
fn below_zero(alloc: Global, given: &[(u64, u64, i128)]) -> Result<Vec<bool>, NoMemory>
    ensures { IfOk result (λ v. v.items ≡ map (λ (e : ℕ × ℕ × ℤ). is_negative e.2) given.now) }
{
    let mut flags = Vec::new(alloc);
    for edge in given {
        flags.push(edge.2 < 0)?;
    }
    Ok(flags)
}

/// The real vertices at which an odd number of the listed edges end, rising. A flag is set for each virtual vertex. It
/// takes the time to sort the edges' ends.
pub fn odd_ends(
    alloc: Global,
    edges: &[Edge],
    virtuals: &[bool],
    listed: &[u32],
) -> Result<NumberList, NoMemory>
    requires each { All (IsEdge (length virtuals.now)) edges.now }
    requires within { All (λ k. k < length edges.now) listed.now }
    ensures { IfOk result (AreOddEnds edges.now virtuals.now listed.now) }
{
    let mut ends = NumberList::from_vec(Vec::new(alloc));
    for k in listed {
        let edge = edges[*k as usize];
        ends.push_if(!virtuals[edge.first as usize], edge.first)?;
        ends.push_if(!virtuals[edge.second as usize], edge.second)?;
    }
    Ok(odd_ones(ends.into_vec()))
}

/// What the listed edges weigh together, without signs.
fn weight_together(edges: &[Edge], listed: &[u32]) -> u64
    requires few { length listed.now ≤ most_edges }
    requires within { All (λ k. k < length edges.now) listed.now }
    requires light { All (λ e. e.weight ≤ most_weight) edges.now }
    ensures total { result ≡ sum_by (λ k. (edge_at edges.now k).weight) listed.now }
    ensures light { result ≤ most_edges * most_weight }
{
    let mut total = 0;
    for k in listed {
        total += edges[*k as usize].weight;
    }
    total
}

/// The changed edges that weigh less than 0 either in the graph or by the change, but not both.
pub fn turned_edges(
    alloc: Global,
    graph: &Graph,
    changes: &[(u32, i64)],
) -> Result<NumberList, NoMemory>
    requires { All (λ (change : ℕ × ℤ). change.0 < length graph.now.edges) changes.now }
    ensures { IfOk result (λ v. v ≡ turned_edges graph.now changes.now) }
{
    let mut turned = NumberList::from_vec(Vec::new(alloc));
    for change in changes {
        turned.push_if((change.1 < 0) != graph.is_negative(change.0), change.0)?;
    }
    Ok(turned)
}

/// The real vertices at which the changes turn the sign of an odd number of edges, rising. It takes no memory if no sign
/// is turned.
pub fn turned_by(
    alloc: Global,
    graph: &Graph,
    changes: &[(u32, i64)],
) -> Result<NumberList, NoMemory>
    requires { All (λ (change : ℕ × ℤ). change.0 < length graph.now.edges) changes.now }
    ensures { IfOk result (λ v. v ≡ turned_by graph.now changes.now) }
{
    let turned = turned_edges(alloc, graph, changes)?;
    graph.odd_ends(alloc, turned.as_slice())
}

/// How far the weight is below 0.
fn shortfall(weight: i64) -> u64
    ensures { result ≡ shortfall weight }
{
    if weight < 0 { weight.unsigned_abs() } else { 0 }
}

/// How far the changed edges' weights are below 0 together, in the graph and by the changes.
pub fn shortfalls(graph: &Graph, changes: &[(u32, i64)]) -> (u64, u64)
    requires few { length changes.now ≤ most_edges }
    requires each { All (IsChange (length graph.now.edges)) changes.now }
    ensures before { result.0 ≡ sum_by (λ (change : ℕ × ℤ). shortfall (signed_weight graph.now change.0)) changes.now }
    ensures after { result.1 ≡ sum_by (λ (change : ℕ × ℤ). shortfall change.1) changes.now }
    ensures low { (result.0 ≤ most_edges * most_weight) × (result.1 ≤ most_edges * most_weight) }
{
    let mut before = 0;
    let mut after = 0;
    for change in changes {
        before += shortfall(graph.weight(change.0));
        after += shortfall(change.1);
    }
    (before, after)
}
