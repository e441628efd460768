//! What comes under watch: the edges at a node, those at a vertex that a node absorbs, and minus nodes.

ghost use Rattle.std.specs.Prelude.{◌≡◌, ◌<◌, ◌+◌, true, [], ◌*◌, ◌∷◌, All, OnErr, OnOk, filter, length};
ghost use Rattle.std.specs.List.{range_with_len};
ghost use Rattle.fb_graph.specs.Problem.{edge_at, touches};
ghost use Rattle.fb_graph.specs.Dual.{is_live, top_at};
ghost use Rattle.fb_regions.specs.Moves.{node_named, outer_end};
ghost use Rattle.fb_obstacles.specs.InternalLooks.{IsEnd};
ghost use Rattle.fb_obstacles.specs.InternalWatching.{Enters, EntersNode, Watches, WatchesOuter, WatchesTaken};
ghost use Rattle.fb_obstacles.specs.Obstacles.{roles_by};

use crate::Watch;
use crate::ends::End;
use crate::looking::look_beside;
use fb_graph::{NoMemory, Scope, Steps};
use fb_regions::{NodeId, Regions, Roles};
use std::sync::ledger::Ledger;

/// Watches these edges from now on.
fn enter_all(watch: &mut Watch, edges: &[u32])
    requires { All (λ k. k < watch.old.edge_count) edges.now }
    ensures { Enters edges.now watch.old watch.new }
{
    for edge in edges {
        watch.keeps();
        watch.enter(*edge);
    }
}

/// Watches the edges at all vertices of the node, the last vertex first. Takes time for each of them, and no memory.
pub fn watch_node<S: Scope>(watch: &mut Watch, scope: &S, regions: &Regions<S>, node: NodeId)
    requires same { S.problem regions.now.scope ≡ S.problem scope.now }
    requires live { is_live regions.now.nodes node ≡ true }
    requires room { watch.old.edge_count ≡ length (S.problem scope.now).edges }
    ensures { Watches (S.problem scope.now) (top_at regions.now.nodes node) watch.old watch.new }
{
    regions.keeps();
    scope.limits();
    let mut next = Some(regions.last_vertex(node));
    while let Some(v) = next {
        enter_all(watch, scope.edges_at(v));
        next = regions.vertex_before(node, v);
    }
}

/// Watches the edge at this vertex with what it bears in these roles, unless one outer node holds both its ends: then it is
/// watched no longer. Counts a look.
fn watch_outer<S: Scope, R: Roles, L: Ledger>(
    watch: &mut Watch,
    scope: &S,
    regions: &Regions<S>,
    roles: &R,
    end: End,
    edge: u32,
    looks: &mut Steps<L>,
)
    requires same { regions.now.scope ≡ scope.now }
    requires room { watch.old.edge_count ≡ length (S.problem scope.now).edges }
    requires below { edge < length (S.problem scope.now).edges }
    requires touches { touches end.vertex (edge_at (S.problem scope.now).edges edge) ≡ true }
    requires held { IsEnd regions.now.nodes end.vertex end }
    ensures watched { WatchesOuter (S.problem scope.now) (roles_by (R.role_of roles.now)) regions.now.nodes (edge ∷ []) watch.old watch.new }
    ensures looks { looks.new ≡ looks.old + 1 }
{
    match look_beside(end, edge, scope, regions, roles, looks) {
        Some(look) => watch.enter_with(edge, look.bound()),
        None => watch.leave(edge),
    }
}

/// Watches the edges at a vertex that an outer node has absorbed, or that none holds any longer, each with what it bears in these
/// roles. Those that lead to another vertex of the same node are watched no longer. Counts a look for each edge.
pub fn watch_taken<S: Scope, R: Roles, L: Ledger>(
    watch: &mut Watch,
    scope: &S,
    regions: &Regions<S>,
    roles: &R,
    v: u32,
    looks: &mut Steps<L>,
)
    requires same { regions.now.scope ≡ scope.now }
    requires room { watch.old.edge_count ≡ length (S.problem scope.now).edges }
    requires below { v < (S.problem scope.now).vertices }
    ensures watched { WatchesTaken (S.problem scope.now) (roles_by (R.role_of roles.now)) regions.now.nodes v watch.old watch.new }
    ensures looks { let p = S.problem scope.now in
        looks.new ≡ looks.old + length (filter (λ k. touches v (edge_at p.edges k)) (range_with_len 0 (length p.edges))) }
{
    let end = End::of(v, regions);
    for edge in scope.edges_at(v) {
        watch_outer(watch, scope, regions, roles, end, *edge, looks);
    }
}

/// The end of the edge that no node holds, if a node holds the other end: its second one if a node holds the first.
pub fn free_end<S: Scope>(scope: &S, regions: &Regions<S>, edge: u32) -> u32
    requires { edge < length (S.problem scope.now).edges }
    ensures { result ≡ outer_end regions.now.nodes (edge_at (S.problem scope.now).edges edge) }
{
    let (first, second) = scope.ends(edge);
    if regions.cover_of(first).is_some() {
        second
    } else {
        first
    }
}

/// Watches the node, which becomes minus, from now on. Takes memory for it.
pub fn enter_minus<S: Scope>(
    watch: &mut Watch,
    regions: &Regions<S>,
    node: NodeId,
) -> Result<(), NoMemory>
    requires { is_live regions.now.nodes node ≡ true }
    ensures ok { OnOk result (EntersNode node (2 * (node_named regions.now.nodes node).top.value) watch.old watch.new) }
    ensures err { OnErr result (watch.new ≡ watch.old) }
{
    watch.enter_node(node, regions.top_value(node))
}
