//! Edges over which a single defect can be matched at once, without a search: to the boundary, or with another single
//! defect. Where noise is low most defects have one.

ghost use Rattle.std.specs.Prelude.{◌≡◌, ◌<◌, true, IfSome};
ghost use Rattle.fb_graph.specs.Dual.{cover_of, is_live};
ghost use Rattle.fb_obstacles.specs.InternalSingles.{HasRoom, IsReach};
ghost use Rattle.fb_search.specs.InternalNear.{IsNear, IsTarget, is_target, with_reach};

use fb_graph::Scope;
use fb_half::{Matching, Standing};
use fb_obstacles::{
    Around, EdgeAtSingle, is_nearer, is_single, reach_over, room_beside, share, single_vertex,
    with_best,
};
use fb_regions::{NodeId, Regions};

/// How a single defect can be matched at once.
#[derive(Clone, Copy)]
pub(crate) enum Near {
    /// It grows by the length, and is matched to the boundary over the edge.
    Boundary { edge: u32, length: u64 },
    /// Both grow, and are matched with each other.
    Pair(NearPair),
}

/// Another single defect with which one can be matched, and how.
#[derive(Clone, Copy)]
pub(crate) struct NearPair {
    /// The edge between the two.
    pub(crate) edge: u32,
    /// By how much the first one grows.
    pub(crate) length: u64,
    /// The node of the other one.
    pub(crate) other: NodeId,
    /// By how much this one grows before: an even length, since it is still unmatched then.
    pub(crate) other_length: u64,
}

/// Whether the edge leads to the boundary or to another unmatched single defect.
fn is_target<S: Scope>(regions: &Regions<S>, matching: &Matching, reach: EdgeAtSingle) -> bool
    requires below { reach.far < (S.problem regions.now.scope).vertices }
    requires covered { reach.other ≡ cover_of regions.now.nodes reach.far }
    ensures { result
        ≡ is_target (S.problem regions.now.scope) regions.now.nodes matching.now.unmatched reach.far reach.other }
{
    let Some(node) = reach.other else {
        return !regions.scope().is_real(reach.far);
    };
    let Standing::Unmatched(_) = matching.standing(node) else {
        return false;
    };
    is_single(regions, node)
}

/// What was found, with a further edge.
fn with_reach<S: Scope>(
    regions: &Regions<S>,
    matching: &Matching,
    around: Around,
    reach: EdgeAtSingle,
) -> Around
    requires below { reach.far < (S.problem regions.now.scope).vertices }
    requires covered { reach.other ≡ cover_of regions.now.nodes reach.far }
    ensures { result
        ≡ with_reach (S.problem regions.now.scope) regions.now.nodes matching.now.unmatched around reach }
{
    if is_nearer(reach, around.best) && is_target(regions, matching, reach) {
        return with_best(around, reach);
    }
    Around {
        best: around.best,
        room: around.room.min(reach.length),
    }
}

/// What one pass over the edges at a single defect finds.
fn around_vertex<S: Scope>(regions: &Regions<S>, matching: &Matching, v: u32) -> Around
    requires { v < (S.problem regions.now.scope).vertices }
    ensures reach { IfSome result.best (IsReach (S.problem regions.now.scope) regions.now.nodes v) }
    ensures target { IfSome result.best
        (λ r. IsTarget (S.problem regions.now.scope) regions.now.nodes matching.now.unmatched r.far r.other) }
    ensures room { IfSome result.best
        (λ r. HasRoom (S.problem regions.now.scope).edges regions.now.nodes v r.far r.length result.room) }
{
    regions.keeps();
    let scope = regions.scope();
    scope.limits();
    let potential = regions.potential(v);
    let mut around = Around {
        best: None,
        room: u64::MAX,
    };
    for edge in scope.edges_at(v) {
        let reach = reach_over(regions, v, potential, *edge);
        around = with_reach(regions, matching, around, reach);
    }
    around
}

/// How the root can be matched at once, if it is a single defect: it grows until the edge to the boundary is tight, or it
/// and another one do until the edge between them is, if their other edges have room.
pub(crate) fn near_of<S: Scope>(
    regions: &Regions<S>,
    matching: &Matching,
    root: NodeId,
) -> Option<Near>
    requires { is_live regions.now.nodes root ≡ true }
    ensures { IfSome result (IsNear (S.problem regions.now.scope) regions.now.nodes matching.now.unmatched root) }
{
    regions.keeps();
    regions.scope().limits();
    let v = single_vertex(regions, root)?;
    let around = around_vertex(regions, matching, v);
    let reach = around.best?;
    let Some(other) = reach.other else {
        if reach.length > around.room {
            return None;
        }
        return Some(Near::Boundary {
            edge: reach.edge,
            length: reach.length,
        });
    };
    let other_room = room_beside(regions, reach.far, reach.far_potential, v);
    let share = share(reach.length, around.room, other_room)?;
    Some(Near::Pair(NearPair {
        edge: reach.edge,
        length: reach.length - share,
        other,
        other_length: share,
    }))
}
