//! The parity of edges and of defects at vertices.

ghost use Rattle.std.specs.Prelude.{◌≡◌, ◌<◌, ◌++◌, All, IfOk, OnOk, length, not};
ghost use Rattle.std.specs.List.{find};
ghost use Rattle.std.specs.List.Sorted.{IsStrictlyIncreasing};
ghost use Rattle.fb_graph.specs.Limits.{IsShot, problem_of};
ghost use Rattle.fb_graph.specs.Signs.{shifted_defects};
ghost use Rattle.fb_graph.specs.Parity.{is_in, is_odd_count};
ghost use Rattle.fb_verify.specs.InternalMarks.{ends_of};
ghost use Rattle.fb_verify.specs.Verdicts.{has_wrong_parity};
ghost use Rattle.fb_graph.specs.Leasts.{least};

use fb_graph::{Graph, NoMemory, Shot, odd_ones};
use std::alloc::Global;

/// The least real vertex at which the parity of the edges isn't the shot's. It takes time by the number of edges and
/// defects, whatever the size of the graph.
pub(crate) fn wrong_parity(
    alloc: Global,
    graph: &Graph,
    shot: &Shot,
    edges: &[u32],
) -> Result<Option<u32>, NoMemory>
    requires shot { IsShot graph.now shot.now }
    requires within { All (λ k. k < length graph.now.edges) edges.now }
    ensures { IfOk result (λ v. v ≡ least graph.now.vertices (has_wrong_parity (problem_of graph.now shot.now) edges.now)) }
{
    graph.limits();
    let odd = odd_ones(marks(alloc, graph, shot, edges)?);
    Ok(first_real(graph, odd.as_slice()))
}

/// Both ends of each of the edges, and the defects.
fn marks(alloc: Global, graph: &Graph, shot: &Shot, edges: &[u32]) -> Result<Vec<u32>, NoMemory>
    requires { All (λ k. k < length graph.now.edges) edges.now }
    ensures { IfOk result (λ v. v.items ≡ ends_of graph.now.edges edges.now ++ shot.now.defects) }
{
    let defects = shot.as_slice();
    let count = edges.len().saturating_mul(2).saturating_add(defects.len());
    let mut marks = Vec::with_capacity(alloc, count)?;
    add_ends(&mut marks, graph, edges)?;
    marks.extend_from_slice(defects)?;
    Ok(marks)
}

/// Adds both ends of each of the edges.
fn add_ends(ends: &mut Vec<u32>, graph: &Graph, edges: &[u32]) -> Result<(), NoMemory>
    requires { All (λ k. k < length graph.now.edges) edges.now }
    ensures { OnOk result (ends.new.items ≡ ends.old.items ++ ends_of graph.now.edges edges.now) }
{
    for edge in edges {
        let (first, second) = graph.ends(*edge);
        ends.push(first)?;
        ends.push(second)?;
    }
    Ok(())
}

/// The first of the vertices that is real.
fn first_real(graph: &Graph, vertices: &[u32]) -> Option<u32>
    requires { All (λ v. v < graph.now.vertices) vertices.now }
    ensures { result ≡ find (λ v. not (is_in graph.now.virtuals v)) vertices.now }
{
    for vertex in vertices {
        if !graph.is_virtual(*vertex) {
            return Some(*vertex);
        }
    }
    None
}

/// The first of the vertices that is virtual.
pub(crate) fn first_virtual(graph: &Graph, vertices: &[u32]) -> Option<u32>
    requires { All (λ v. v < graph.now.vertices) vertices.now }
    ensures { result ≡ find (is_in graph.now.virtuals) vertices.now }
{
    for vertex in vertices {
        if graph.is_virtual(*vertex) {
            return Some(*vertex);
        }
    }
    None
}

/// Whether an odd number of the vertices are shifted defects.
pub(crate) fn has_odd_defects(graph: &Graph, shot: &Shot, vertices: &[u32]) -> bool
    requires { IsShot graph.now shot.now }
    ensures { result ≡ is_odd_count (is_in (shifted_defects graph.now shot.now)) vertices.now }
{
    let mut odd = false;
    for vertex in vertices {
        odd = odd != is_shifted(graph, shot, *vertex);
    }
    odd
}

/// Whether a vertex is a shifted defect: an odd number of defects and of ends of edges that weigh less than 0 are there.
/// It takes the logarithm of how many there are.
fn is_shifted(graph: &Graph, shot: &Shot, vertex: u32) -> bool
    requires { IsShot graph.now shot.now }
    ensures { result ≡ is_in (shifted_defects graph.now shot.now) vertex }
{
    graph.limits();
    let turned = is_listed(graph.turned(), vertex) != is_listed(shot.turned(), vertex);
    is_listed(shot.as_slice(), vertex) != turned
}

/// Whether a strictly rising list holds the number.
fn is_listed(numbers: &[u32], number: u32) -> bool
    requires { IsStrictlyIncreasing numbers.now }
    ensures { result ≡ is_in numbers.now number }
{
    numbers.binary_search(&number).is_ok()
}
