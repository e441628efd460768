ghost use Rattle.std.specs.Prelude.{◌≡◌, ◌+◌, ◌<◌, ◌≤◌, true, false, List, length, MatchOption};
ghost use Rattle.fb_graph.specs.Dual.{AreUnderOne, Node};
ghost use Rattle.fb_graph.specs.Problem.{edge_at, touches};
ghost use Rattle.fb_obstacles.specs.InnerEdges.{is_inner};
ghost use Rattle.fb_obstacles.specs.InternalLooks.{AreEnds, IsEnd, bounded_look, both_looks, bound_by, edge_look, far_by, fits_within, look_at, look_if};

use crate::ends::{Cover, End, HolderPair};
use crate::obstacle::Obstacle;
use fb_graph::{Scope, Steps};
use fb_regions::{Regions, Roles};
use std::sync::ledger::Ledger;

/// What an edge or a minus node allows of a step.
#[derive(Clone, Copy)]
pub enum Look {
    /// It doesn't bound the step.
    Clear,
    /// It bounds the step by this length, at least 1.
    Within(u64),
    /// An obstacle is there.
    Blocked(Obstacle),
}

impl Look {
    /// Both looks in one: the obstacle of the first that has one, or the lesser bound.
    pub fn and(self, other: Look) -> Look
        ensures { result ≡ both_looks self other }
    {
        match (self, other) {
            (Look::Blocked(_), _) => self,
            (_, Look::Blocked(_)) => other,
            (Look::Clear, _) => other,
            (_, Look::Clear) => self,
            (Look::Within(i), Look::Within(j)) => Look::Within(i.min(j)),
        }
    }

    /// A bound of the slack of the edge that was looked at.
    pub fn bound(self) -> u64
        ensures { result ≤ bound_by self }
    {
        match self {
            Look::Clear => u64::MAX,
            Look::Within(length) => length.saturating_mul(2),
            Look::Blocked(_) => 0,
        }
    }

    /// Whether an edge with at least this slack bears each step that the look allows.
    pub fn fits_within(self, slack: u64) -> bool
        ensures { result ≡ fits_within self slack }
    {
        match self {
            Look::Within(bound) => bound <= slack / 2,
            _ => false,
        }
    }
}

/// The bound, or the obstacle if it is 0.
fn bounded_look(bound: u64, obstacle: Obstacle) -> Look
    ensures { result ≡ bounded_look bound obstacle }
{
    if bound == 0 {
        Look::Blocked(obstacle)
    } else {
        Look::Within(bound)
    }
}

/// How far a plus node may grow towards this end of the edge. Between two plus nodes the residue is even, and each
/// takes half of it.
fn look_at(far: Cover, residue: u64, edge: u32) -> Look
    ensures { result ≡ look_at far residue edge }
{
    match far {
        Cover::Plus(_) => bounded_look(residue / 2, Obstacle::PlusPair(edge)),
        Cover::Minus => Look::Clear,
        Cover::Out => bounded_look(residue, Obstacle::Meet(edge)),
        Cover::Bare => bounded_look(residue, Obstacle::Absorb(edge)),
        Cover::Virtual => bounded_look(residue, Obstacle::Boundary(edge)),
    }
}

/// A look at one edge, which is counted; none if one outer node holds both its ends.
pub fn look_between<S: Scope, R: Roles, L: Ledger>(
    edge: u32,
    scope: &S,
    regions: &Regions<S>,
    roles: &R,
    looks: &mut Steps<L>,
) -> Option<Look>
    requires same { regions.now.scope ≡ scope.now }
    requires below { edge < length (S.problem scope.now).edges }
    ensures look { let e = edge_at (S.problem scope.now).edges edge in
        MatchOption result (AreUnderOne regions.now.nodes e.first e.second)
        (λ look. (look ≡ edge_look (S.problem scope.now) (R.role_of roles.now) regions.now.nodes edge)
        × (is_inner regions.now.nodes e ≡ false)) }
    ensures counted { looks.new ≡ looks.old + 1 }
{
    look_over(edge, HolderPair::of(edge, regions), scope, roles, looks)
}

/// The same of an edge at this vertex.
pub fn look_beside<S: Scope, R: Roles, L: Ledger>(
    end: End,
    edge: u32,
    scope: &S,
    regions: &Regions<S>,
    roles: &R,
    looks: &mut Steps<L>,
) -> Option<Look>
    requires same { regions.now.scope ≡ scope.now }
    requires below { edge < length (S.problem scope.now).edges }
    requires touches { touches end.vertex (edge_at (S.problem scope.now).edges edge) ≡ true }
    requires held { IsEnd regions.now.nodes end.vertex end }
    ensures look { MatchOption result (is_inner regions.now.nodes (edge_at (S.problem scope.now).edges edge) ≡ true)
        (λ look. (look ≡ edge_look (S.problem scope.now) (R.role_of roles.now) regions.now.nodes edge)
        × (is_inner regions.now.nodes (edge_at (S.problem scope.now).edges edge) ≡ false)) }
    ensures counted { looks.new ≡ looks.old + 1 }
{
    look_over(
        edge,
        HolderPair::at(end, edge, regions),
        scope,
        roles,
        looks,
    )
}

/// The same of an edge whose ends are known.
fn look_over<S: Scope, R: Roles, L: Ledger>(
    edge: u32,
    ends: HolderPair,
    scope: &S,
    roles: &R,
    looks: &mut Steps<L>,
) -> Option<Look>
    requires { edge < length (S.problem scope.now).edges }
    ensures look { (nodes : List Node) → AreEnds nodes (edge_at (S.problem scope.now).edges edge) ends
        → MatchOption result (is_inner nodes (edge_at (S.problem scope.now).edges edge) ≡ true)
        (λ look. (look ≡ edge_look (S.problem scope.now) (R.role_of roles.now) nodes edge)
        × (is_inner nodes (edge_at (S.problem scope.now).edges edge) ≡ false)) }
    ensures counted { looks.new ≡ looks.old + 1 }
{
    looks.tick();
    if ends.are_under_one() {
        return None;
    }
    let residue = ends.residue(scope.weight(edge));
    Some(look_with(edge, ends, residue, scope, roles))
}

/// A look at one edge whose ends and residue are known.
fn look_with<S: Scope, R: Roles>(
    edge: u32,
    ends: HolderPair,
    residue: u64,
    scope: &S,
    roles: &R,
) -> Look
    requires { edge < length (S.problem scope.now).edges }
    ensures { let e = edge_at (S.problem scope.now).edges edge in
        result ≡ look_if (far_by (S.problem scope.now) (R.role_of roles.now) e ends) residue edge }
{
    match ends.far(edge, scope, roles) {
        Some(far) => look_at(far, residue, edge),
        None => Look::Clear,
    }
}
