ghost use Rattle.std.specs.Prelude.{◌≡◌, ◌+◌, ◌<◌, ◌≤◌, length, IfSome, MatchOption};
ghost use Rattle.fb_graph.specs.Problem.{edge_at, with_defects};
ghost use Rattle.fb_graph.specs.Laws.{HasNoOddClosed};
ghost use Rattle.fb_graph.specs.Dual.{leaves};
ghost use Rattle.fb_graph.specs.Covers.{AreRoles};
ghost use Rattle.fb_laws.specs.Lengths.{HasPlus};
ghost use Rattle.fb_obstacles.specs.InnerEdges.{LeavesInner};
ghost use Rattle.fb_obstacles.specs.Obstacles.{AreMinusBounded, AreMinusLive, BearOne, BearsStep, HavePlusParity, IsAtEdge, IsAtMinus, IsObstacle, IsWatched, Obstructs, roles_by, slack_at};
ghost use Rattle.fb_obstacles.specs.Watched.{AreBounded};

use crate::bounding::look_by_bounds;
use crate::ends::keeps_dual;
use crate::looking::{Look, look_between};
use crate::obstacle::Obstacle;
use crate::watching::Watch;
use fb_graph::{Scope, Steps};
use fb_regions::{Regions, Roles};
use std::sync::ledger::Ledger;

/// An obstacle in the way of the tree with these roles, or how far the tree may step. Takes no memory. Looks at the minus node
/// that is due first, and at those watched edges whose bounds don't show that they bear the step, up to the first obstacle. An
/// edge comes before a minus node that is due with it. Sets the bound of each edge that it looks at to what the edge bears in
/// these roles, and counts a look for it. An edge that is found inside one outer node is watched no longer, nor is a node that
/// isn't minus any longer once it is due first.
pub fn next_obstacle<S: Scope, R: Roles, L: Ledger>(
    watch: &mut Watch,
    scope: &S,
    regions: &Regions<S>,
    roles: &R,
    looks: &mut Steps<L>,
) -> Obstacle
    requires same { regions.now.scope ≡ scope.now }
    requires plus { HasPlus (roles_by (R.role_of roles.now)) regions.now.nodes }
    requires roles { AreRoles (roles_by (R.role_of roles.now)) regions.now.nodes }
    requires live { AreMinusLive (roles_by (R.role_of roles.now)) regions.now.nodes }
    requires minus { AreMinusBounded (roles_by (R.role_of roles.now)) regions.now.nodes watch.old }
    requires parity { HavePlusParity (roles_by (R.role_of roles.now)) regions.now.nodes }
    requires even { HasNoOddClosed (with_defects (S.problem scope.now) (leaves regions.now.nodes)) }
    requires watched { IsWatched (S.problem scope.now) (roles_by (R.role_of roles.now)) regions.now.nodes watch.old.edges }
    requires bounded { AreBounded (slack_at (S.problem scope.now) (roles_by (R.role_of roles.now)) regions.now.nodes) watch.old }
    ensures obstacle { IsObstacle (S.problem scope.now) (roles_by (R.role_of roles.now)) regions.now.nodes result }
    ensures first { IsAtMinus result → BearOne (S.problem scope.now) (roles_by (R.role_of roles.now)) regions.now.nodes watch.old.edges }
    ensures left { LeavesInner (S.problem scope.now) regions.now.nodes watch.old watch.new }
    ensures watched { IsWatched (S.problem scope.now) (roles_by (R.role_of roles.now)) regions.now.nodes watch.new.edges }
    ensures bounded { AreBounded (slack_at (S.problem scope.now) (roles_by (R.role_of roles.now)) regions.now.nodes) watch.new }
    ensures minus { AreMinusBounded (roles_by (R.role_of roles.now)) regions.now.nodes watch.new }
    ensures looks { (looks.old ≤ looks.new) × (looks.new ≤ looks.old + length watch.old.edges) }
{
    keeps_dual(regions);
    match look_by_bounds(watch, scope, regions, roles, looks) {
        Look::Blocked(obstacle) => obstacle,
        Look::Within(most) => Obstacle::Free(most),
        Look::Clear => unreachable!(),
    }
}

/// The obstacle at the edge, or none if the edge bears a step of length 1. Takes constant time but for the climbs from the
/// edge's ends, and counts one look.
pub fn obstacle_at<S: Scope, R: Roles, L: Ledger>(
    edge: u32,
    scope: &S,
    regions: &Regions<S>,
    roles: &R,
    looks: &mut Steps<L>,
) -> Option<Obstacle>
    requires same { regions.now.scope ≡ scope.now }
    requires roles { AreRoles (roles_by (R.role_of roles.now)) regions.now.nodes }
    requires parity { HavePlusParity (roles_by (R.role_of roles.now)) regions.now.nodes }
    requires below { edge < length (S.problem scope.now).edges }
    ensures obstacle { MatchOption result
        (BearsStep (roles_by (R.role_of roles.now)) regions.now.nodes 1 (edge_at (S.problem scope.now).edges edge))
        (Obstructs (S.problem scope.now) (roles_by (R.role_of roles.now)) regions.now.nodes) }
    ensures place { IfSome result (IsAtEdge edge) }
    ensures looks { looks.new ≡ looks.old + 1 }
{
    keeps_dual(regions);
    scope.limits();
    let Some(look) = look_between(edge, scope, regions, roles, looks) else {
        return None;
    };
    match look {
        Look::Blocked(obstacle) => Some(obstacle),
        Look::Clear => None,
        Look::Within(_) => None,
    }
}
