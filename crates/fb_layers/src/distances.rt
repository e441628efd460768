//! The layer of each real vertex, found by a search from each least vertex that was not reached yet.

ghost use Rattle.std.specs.Prelude.{◌≡◌, ℕ, ◌+◌, ◌<◌, ◌≤◌, true, is_some, length, IfOk, OnOk};
ghost use Rattle.fb_graph.specs.Components.{Leads};
ghost use Rattle.fb_graph.specs.Limits.{is_real_in};
ghost use Rattle.fb_graph.specs.Problem.{edge_at, touches};
ghost use Rattle.fb_layers.specs.Layers.{AreLayers, height_of, is_inner, layer_at};
ghost use Rattle.fb_layers.specs.InternalSearch.{Grows, IsNear, IsSearched, reached_at};

use crate::depths::Layers;
use crate::search::Search;
use fb_graph::{Graph, NoMemory};
use std::alloc::Global;

/// The layers of a graph. It takes time linear in the size of the graph.
pub fn layers(alloc: Global, graph: &Graph) -> Result<Layers, NoMemory>
    ensures layers { IfOk result (AreLayers graph.now) }
    ensures height { IfOk result (λ l. height_of l ≤ graph.now.vertices) }
{
    graph.limits();
    let mut search = Search::new(alloc, graph.vertices())?;
    for v in 0..graph.vertices() {
        search_from(graph, &mut search, v)?;
    }
    Ok(Layers::new(search.into_layers()))
}

/// Reaches a vertex, if it is real, and what is connected with it. All smaller ones are reached.
fn search_from(graph: &Graph, search: &mut Search, root: u32) -> Result<(), NoMemory>
    requires below { root < graph.now.vertices }
    requires searched { IsSearched graph.now search.old (length search.old.order) }
    requires passed { (u : ℕ) → u < root → is_real_in graph.now u ≡ true
        → is_some (layer_at search.old.layers u) ≡ true }
    ensures searched { OnOk result (IsSearched graph.now search.new (length search.new.order)) }
    ensures passed { OnOk result ((u : ℕ) → u < root + 1 → is_real_in graph.now u ≡ true
        → is_some (layer_at search.new.layers u) ≡ true) }
{
    graph.limits();
    if graph.is_virtual(root) {
        return Ok(());
    }
    let mut place = search.len();
    search.reach(root, 0)?;
    while place < search.len() {
        search_around(graph, search, place)?;
        place += 1;
    }
    Ok(())
}

/// Reaches the neighbours of the vertex at this place.
fn search_around(graph: &Graph, search: &mut Search, place: usize) -> Result<(), NoMemory>
    requires place { place < length search.old.order }
    requires searched { IsSearched graph.now search.old place }
    ensures searched { OnOk result (IsSearched graph.now search.new (place + 1)) }
    ensures grows { OnOk result (Grows search.old search.new) }
{
    graph.limits();
    let edges = graph.edges_at(search.reached_at(place).vertex);
    for edge in edges {
        reach_over(graph, search, place, *edge)?;
    }
    Ok(())
}

/// Reaches the other end of an edge of the vertex at this place, if it is real.
fn reach_over(graph: &Graph, search: &mut Search, place: usize, edge: u32) -> Result<(), NoMemory>
    requires place { place < length search.old.order }
    requires edge { edge < length graph.now.edges }
    requires touches { touches (reached_at search.old.order place).vertex (edge_at graph.now.edges edge) ≡ true }
    requires searched { IsSearched graph.now search.old place }
    ensures searched { OnOk result (IsSearched graph.now search.new place) }
    ensures grows { OnOk result (Grows search.old search.new) }
    ensures near { OnOk result (is_inner graph.now (edge_at graph.now.edges edge) ≡ true
        → IsNear search.new.layers (edge_at graph.now.edges edge)) }
{
    graph.limits();
    let from = search.reached_at(place);
    let to = other_end(graph, edge, from.vertex);
    if graph.is_virtual(to) {
        return Ok(());
    }
    search.reach(to, from.layer + 1)?;
    Ok(())
}

/// The other end of an edge of a vertex.
fn other_end(graph: &Graph, edge: u32, v: u32) -> u32
    requires edge { edge < length graph.now.edges }
    requires touches { touches v (edge_at graph.now.edges edge) ≡ true }
    ensures { Leads (edge_at graph.now.edges edge) v result }
{
    let (first, second) = graph.ends(edge);
    if first == v { second } else { first }
}
