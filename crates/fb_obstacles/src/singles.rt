//! Single defects, and the edges at one: what each reaches, and how much room the others leave.

ghost use Rattle.std.specs.Prelude.{◌≡◌, ◌≢◌, ◌+◌, ◌-◌, ◌<◌, ◌%◌, ◌∷◌, [], ℕ, false, true, length, MatchOption};
ghost use Rattle.fb_graph.specs.Components.{Leads};
ghost use Rattle.fb_graph.specs.Dual.{all_cuts, height_of, is_live, top_at};
ghost use Rattle.fb_graph.specs.Problem.{edge_at, touches};
ghost use Rattle.fb_obstacles.specs.InternalSingles.{HasRoom, IsReach, IsShare, is_nearer, is_single, with_best};

use fb_graph::Scope;
use fb_regions::{NodeId, Regions, residue_left};

/// An edge at a single defect, with what it reaches.
#[derive(Clone, Copy)]
pub struct EdgeAtSingle {
    /// Its number.
    pub edge: u32,
    /// The vertex at its other end.
    pub far: u32,
    /// This vertex's potential.
    pub far_potential: u64,
    /// The outer node that holds this vertex, if any.
    pub other: Option<NodeId>,
    /// Its residue: its weight without the potentials of its ends; 0 if these are more.
    pub length: u64,
}

/// The edges at a single defect that were looked at.
#[derive(Clone, Copy)]
pub struct Around {
    /// Of those to the boundary or to another unmatched single defect, one with the least residue.
    pub best: Option<EdgeAtSingle>,
    /// The least residue of the others; `u64::MAX` if there are none.
    pub room: u64,
}

/// Whether a node is a defect and holds no other vertex.
pub fn is_single<S: Scope>(regions: &Regions<S>, node: NodeId) -> bool
    requires { is_live regions.now.nodes node ≡ true }
    ensures { result ≡ is_single regions.now.nodes node }
{
    if regions.is_joined(node) {
        return false;
    }
    regions.layer_count(node) == 1
}

/// The vertex of a node that is a defect and holds no other vertex; none for any other node.
pub fn single_vertex<S: Scope>(regions: &Regions<S>, node: NodeId) -> Option<u32>
    requires { is_live regions.now.nodes node ≡ true }
    ensures { MatchOption result (is_single regions.now.nodes node ≡ false) (λ v. top_at regions.now.nodes node ≡ v ∷ []) }
{
    regions.keeps();
    if !is_single(regions, node) {
        return None;
    }
    Some(regions.first_vertex(node))
}

/// The other end of an edge at this vertex.
fn other_end<S: Scope>(scope: &S, edge: u32, v: u32) -> u32
    requires within { edge < length (S.problem scope.now).edges }
    requires touches { touches v (edge_at (S.problem scope.now).edges edge) ≡ true }
    ensures { Leads (edge_at (S.problem scope.now).edges edge) v result }
{
    let (first, second) = scope.ends(edge);
    if first == v { second } else { first }
}

/// The edge at a single defect, the vertex `v` of this potential, with what it reaches.
pub fn reach_over<S: Scope>(regions: &Regions<S>, v: u32, potential: u64, edge: u32) -> EdgeAtSingle
    requires within { edge < length (S.problem regions.now.scope).edges }
    requires touches { touches v (edge_at (S.problem regions.now.scope).edges edge) ≡ true }
    requires potential { potential ≡ height_of (all_cuts regions.now.nodes) v }
    ensures edge { result.edge ≡ edge }
    ensures below { result.far < (S.problem regions.now.scope).vertices }
    ensures reach { IsReach (S.problem regions.now.scope) regions.now.nodes v result }
{
    let scope = regions.scope();
    scope.limits();
    let far = other_end(scope, edge, v);
    let holder = regions.holder(far);
    let far_potential = holder.map_or(0, |holder| holder.potential);
    EdgeAtSingle {
        edge,
        far,
        far_potential,
        other: holder.map(|holder| holder.node),
        length: residue_left(scope.weight(edge), potential, far_potential),
    }
}

/// Whether the edge has less residue than the best one so far, or is the first one.
pub fn is_nearer(reach: EdgeAtSingle, best: Option<EdgeAtSingle>) -> bool
    ensures { result ≡ is_nearer reach best }
{
    match best {
        Some(best) => reach.length < best.length,
        None => true,
    }
}

/// What was found, once a further edge is the best one: the best one before is one of the others.
pub fn with_best(around: Around, reach: EdgeAtSingle) -> Around
    ensures { result ≡ with_best around reach }
{
    let room = match around.best {
        Some(best) => around.room.min(best.length),
        None => around.room,
    };
    Around {
        best: Some(reach),
        room,
    }
}

/// The least residue of the edges at a vertex of this potential, but for those to the far one; `u64::MAX` if there are
/// no others.
pub fn room_beside<S: Scope>(regions: &Regions<S>, v: u32, potential: u64, far: u32) -> u64
    requires below { v < (S.problem regions.now.scope).vertices }
    requires apart { v ≢ far }
    requires potential { potential ≡ height_of (all_cuts regions.now.nodes) v }
    ensures { HasRoom (S.problem regions.now.scope).edges regions.now.nodes v far 0 result }
{
    let scope = regions.scope();
    let mut room = u64::MAX;
    for edge in scope.edges_at(v) {
        let end = other_end(scope, *edge, v);
        if end != far {
            let residue = residue_left(scope.weight(*edge), potential, regions.potential(end));
            room = room.min(residue);
        }
    }
    room
}

/// How much of the residue of an edge between two single defects the other one takes, about half of the residue: an even
/// length within its room, which leaves the rest within the first one's room. Of an even residue, none is returned only if
/// there is no such length.
pub fn share(residue: u64, room: u64, other_room: u64) -> Option<u64>
    ensures { MatchOption result (residue % 2 ≡ 0 → (share : ℕ) → ¬ IsShare residue room other_room share)
        (IsShare residue room other_room) }
{
    let least = residue.saturating_sub(room - room % 2);
    let most = residue.min(other_room);
    let about = (residue / 2).max(least).min(most);
    let share = about - about % 2;
    if least <= share { Some(share) } else { None }
}
