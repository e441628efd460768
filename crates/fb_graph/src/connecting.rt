//! The components of a scope, found by a search from each vertex in rising order.

ghost use Rattle.std.specs.Prelude.{◌≡◌, ◌+◌, ◌<◌, ◌≤◌, length, IfOk, OnOk};
ghost use Rattle.fb_graph.specs.InternalFlooding.{Grows, IsFlooding, with_ends};
ghost use Rattle.fb_graph.specs.InternalLabelling.{IsBounded, IsLabelling};

use crate::connected::Components;
use crate::faults::NoMemory;
use crate::flood::Flood;
use crate::graph::Graph;
use crate::scope::Scope;
use crate::whole::Whole;
use std::alloc::Global;

/// The components of the graph. It takes time linear in the size of the graph.
pub fn components(alloc: Global, graph: &Graph) -> Result<Components<Whole<'_>>, NoMemory>
    ensures { IfOk result (λ c. c.0.now ≡ graph.now) }
{
    components_of(alloc, Whole(graph))
}

/// The components of a scope: a vertex that isn't real there is boundary. It takes time linear in the size of the scope's
/// graph.
pub fn components_of<S: Scope>(alloc: Global, scope: S) -> Result<Components<S>, NoMemory>
    ensures { IfOk result (λ c. c ≡ scope) }
{
    scope.limits();
    let labels = label_vertices(alloc, &scope)?;
    let bounded = mark_bounded(alloc, &scope, &labels)?;
    let odd = vec![in alloc; false; labels.len()]?;
    Ok(Components {
        scope,
        labels,
        bounded,
        odd,
    })
}

/// The least vertex of each vertex's component.
fn label_vertices<S: Scope>(alloc: Global, scope: &S) -> Result<Vec<u32>, NoMemory>
    ensures { IfOk result (λ v. IsLabelling (S.problem scope.now) v.items) }
{
    scope.limits();
    let n = scope.vertices();
    let mut flood = Flood::new(alloc, n)?;
    for v in 0..n {
        let start = flood.len();
        flood.reach(v, v)?;
        flood_component(scope, &mut flood, start, v)?;
    }
    Ok(flood.into_labels())
}

/// Reaches what is joined to the vertices from place `start` on, which have this label.
fn flood_component<S: Scope>(
    scope: &S,
    flood: &mut Flood,
    start: usize,
    label: u32,
) -> Result<(), NoMemory>
    requires place { start ≤ length flood.old.order }
    requires flooding { IsFlooding (S.problem scope.now) flood.old start label }
    ensures flooding { OnOk result (IsFlooding (S.problem scope.now) flood.new (length flood.new.order) label) }
    ensures grows { OnOk result (Grows flood.old flood.new) }
{
    let mut place = start;
    while place < flood.len() {
        flood_neighbours(scope, flood, place, label)?;
        place += 1;
    }
    Ok(())
}

/// Reaches the neighbours of the vertex at this place, which has this label.
fn flood_neighbours<S: Scope>(
    scope: &S,
    flood: &mut Flood,
    place: usize,
    label: u32,
) -> Result<(), NoMemory>
    requires place { place < length flood.old.order }
    requires flooding { IsFlooding (S.problem scope.now) flood.old place label }
    ensures flooding { OnOk result (IsFlooding (S.problem scope.now) flood.new (place + 1) label) }
    ensures grows { OnOk result (Grows flood.old flood.new) }
{
    scope.limits();
    let edges = scope.edges_at(flood.vertex_at(place));
    for edge in edges {
        reach_ends(scope, flood, *edge, label)?;
    }
    Ok(())
}

/// Reaches both ends of an edge with this label.
fn reach_ends<S: Scope>(scope: &S, flood: &mut Flood, edge: u32, label: u32) -> Result<(), NoMemory>
    requires edge { edge < length (S.problem scope.now).edges }
    requires room { length flood.old.labels ≡ (S.problem scope.now).vertices }
    ensures { OnOk result (flood.new ≡ with_ends (S.problem scope.now) flood.old edge label) }
{
    scope.limits();
    let (first, second) = scope.ends(edge);
    flood.reach(first, label)?;
    flood.reach(second, label)?;
    Ok(())
}

/// A flag for each label, set if some vertex of it is boundary.
fn mark_bounded<S: Scope>(alloc: Global, scope: &S, labels: &[u32]) -> Result<Vec<bool>, NoMemory>
    requires { IsLabelling (S.problem scope.now) labels.now }
    ensures { IfOk result (λ v. IsBounded (S.problem scope.now) labels.now v.items) }
{
    let mut bounded = vec![in alloc; false; labels.len()]?;
    for v in 0..scope.vertices() {
        if !scope.is_real(v) {
            bounded[labels[v as usize] as usize] = true;
        }
    }
    Ok(bounded)
}
