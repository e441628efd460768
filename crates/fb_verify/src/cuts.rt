//! The rules that a printed cut keeps by itself and beside the one before it.

ghost use Rattle.std.specs.Prelude.{◌≡◌, []};
ghost use Rattle.fb_graph.specs.Limits.{IsShot};
ghost use Rattle.fb_verify.specs.Verdicts.{cut_fault, cuts_fault};

use crate::numbers::{beyond, fall};
use crate::parities::{first_virtual, has_odd_defects};
use crate::verdicts::Verdict;
use fb_graph::{CutList, Graph, Shot};

/// The first fault of the first cut that has one.
pub(crate) fn first_cut_fault(graph: &Graph, shot: &Shot, cuts: &CutList) -> Option<Verdict>
    requires { IsShot graph.now shot.now }
    ensures { result ≡ cuts_fault graph.now shot.now 0 [] cuts.now }
{
    let mut before: &[u32] = &[];
    for j in 0..cuts.len() {
        let vertices = cuts.vertices(j);
        let fault = fault_of_cut(graph, shot, j as u64, before, vertices);
        if fault.is_some() {
            return fault;
        }
        before = vertices;
    }
    None
}

/// The first fault of cut `j`, given the vertices of the cut before it.
#[tactic(auto, using(crate::proofs::Leasts::bounds))]
fn fault_of_cut(
    graph: &Graph,
    shot: &Shot,
    j: u64,
    before: &[u32],
    vertices: &[u32],
) -> Option<Verdict>
    requires { IsShot graph.now shot.now }
    ensures { result ≡ cut_fault graph.now shot.now j before.now vertices.now }
{
    if vertices.is_empty() {
        return Some(Verdict::CutEmpty(j));
    }
    if let Some(vertex) = beyond(vertices, graph.vertices()) {
        return Some(Verdict::VertexOutOfRange(vertex));
    }
    if fall(vertices).is_some() || !before.cmp(vertices).is_lt() {
        return Some(Verdict::CutsNotRising(j));
    }
    if let Some(vertex) = first_virtual(graph, vertices) {
        return Some(Verdict::CutHoldsVirtual(vertex));
    }
    if !has_odd_defects(graph, shot, vertices) {
        return Some(Verdict::CutEven(j));
    }
    None
}
