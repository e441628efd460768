//! What is in the way of trees that grow together.

ghost use Rattle.std.specs.Prelude.{ℕ, ◌≡◌, [], ◌<◌, ◌≤◌, true, false, IfSome, Some, length};
ghost use Rattle.fb_graph.specs.Dual.{cover_of};
ghost use Rattle.fb_graph.specs.Parity.{is_in};
ghost use Rattle.fb_graph.specs.Problem.{edge_at};
ghost use Rattle.fb_half.specs.Matchings.{listed_names};
ghost use Rattle.fb_half.specs.Parts.{problem_in};
ghost use Rattle.fb_trees.specs.Forests.{trees_in};
ghost use Rattle.fb_obstacles.specs.Obstacles.{IsFree, IsObstacle};
ghost use Rattle.fb_obstacles.specs.declared.obstacle.Obstacle.{Obstacle};
ghost use Rattle.fb_obstacles.specs.declared.obstacle.Obstacle.TheVariants.{Meet};
ghost use Rattle.fb_search.specs.InternalGrowing.{GrowingValue, roles_among};
ghost use Rattle.fb_search.specs.InternalGrowth.{Blocks, HasGrownFree, IsGrowthRewatched};
ghost use Rattle.fb_search.specs.InternalTreeMeetings.{MeetsOutside};

use crate::growing::Growing;
use fb_graph::{NoMemory, Scope, Steps};
use fb_obstacles::{Obstacle, next_obstacle, obstacle_at};
use fb_regions::{NodeId, Regions, Role};
use std::sync::ledger::Ledger;

impl Growing<'_> {
    /// Whether no tree is left.
    pub(crate) fn is_done(&self) -> bool
        ensures done { result ≡ true → trees_in self.now.forest ≡ [] }
        ensures more { result ≡ false → 1 ≤ length (trees_in self.now.forest) }
    {
        self.forest.left() == 0
    }

    /// Takes the room that the watch needs to keep its edges in order.
    pub(crate) fn make_room(&mut self) -> Result<(), NoMemory>
        ensures { self.new ≡ self.old }
    {
        self.watch.make_room()
    }

    /// The obstacle in the trees' way, or how far they may step; the regions tell how each node moves. Raises the bounds of the
    /// edges that it looks at, and no longer watches those that it finds inside one outer node.
    pub(crate) fn next<L: Ledger>(&mut self, looks: &mut Steps<L>) -> Obstacle
        requires some { 1 ≤ length (trees_in self.old.forest) }
        ensures obstacle { IsObstacle (problem_in self.new.part) (roles_among self.new.forest) self.new.part.nodes result }
        ensures same { IsGrowthRewatched self.old self.new }
    {
        let Growing { parts, watch, .. } = self;
        let scope = *parts.regions.scope();
        next_obstacle(watch, &scope, &parts.regions, &parts.regions, looks)
    }

    /// The obstacle in the trees' way. Where none is, all trees make their greatest free step first, up to the next one.
    pub(crate) fn next_event<L: Ledger>(&mut self, looks: &mut Steps<L>) -> Obstacle
        requires some { 1 ≤ length (trees_in self.old.forest) }
        ensures obstacle { Blocks self.new result }
        ensures grown { HasGrownFree self.old self.new }
    {
        match self.next(looks) {
            Obstacle::Free(length) => match self.step_freely(length, looks) {
                Some(obstacle) => obstacle,
                None => self.next(looks),
            },
            obstacle => obstacle,
        }
    }

    /// All trees make the greatest free step, which is of this length. Returns the obstacle at the edge that limited it, if
    /// one is there then. Whatever obstacle is found next is no free step.
    pub(crate) fn step_freely<L: Ledger>(
        &mut self,
        by: u64,
        looks: &mut Steps<L>,
    ) -> Option<Obstacle>
        requires some { 1 ≤ length (trees_in self.old.forest) }
        requires free { IsFree (problem_in self.old.part) (roles_among self.old.forest) self.old.part.nodes by }
        ensures obstacle { IfSome result (Blocks self.new) }
        ensures grown { HasGrownFree self.old self.new }
        ensures some { 1 ≤ length (trees_in self.new.forest) }
        ensures next { (next : GrowingValue) (o : Obstacle) → IsGrowthRewatched self.new next
            → IsObstacle (problem_in next.part) (roles_among next.forest) next.part.nodes o
            → Blocks next o × HasGrownFree self.old next }
    {
        self.keeps();
        self.step(by);
        self.limiting(looks)
    }

    /// The obstacle at the edge that limited the last step, if one is there now.
    pub(crate) fn limiting<L: Ledger>(&self, looks: &mut Steps<L>) -> Option<Obstacle>
        ensures { IfSome result (Blocks self.now) }
    {
        let edge = self.watch.limiting()?;
        let scope = *self.parts.regions.scope();
        obstacle_at(
            edge,
            &scope,
            &self.parts.regions,
            &self.parts.regions,
            looks,
        )
    }

    /// The plus node from which the edge leads to a node in no tree, and this node, which is matched or waits.
    pub(crate) fn met_nodes(&self, edge: u32) -> (NodeId, NodeId)
        requires { Blocks self.now (Meet edge) }
        ensures meets { MeetsOutside self.now edge result.0 result.1 }
        ensures listed { is_in (listed_names self.now.part.matching) result.1 ≡ true }
    {
        let (first, second) = over_ends(&self.parts.regions, edge);
        match self.forest.role(first) {
            Role::Plus => (first, second),
            _ => (second, first),
        }
    }
}

/// The two outer nodes over the ends of the edge.
pub(crate) fn over_ends<S: Scope>(regions: &Regions<S>, edge: u32) -> (NodeId, NodeId)
    requires within { edge < length (S.problem regions.now.scope).edges }
    requires covered { let e = edge_at (S.problem regions.now.scope).edges edge in
        (a b : ℕ) × (cover_of regions.now.nodes e.first ≡ Some a) × (cover_of regions.now.nodes e.second ≡ Some b) }
    ensures first { cover_of regions.now.nodes (edge_at (S.problem regions.now.scope).edges edge).first ≡ Some result.0 }
    ensures second { cover_of regions.now.nodes (edge_at (S.problem regions.now.scope).edges edge).second ≡ Some result.1 }
{
    let (first, second) = regions.scope().ends(edge);
    match (regions.cover_of(first), regions.cover_of(second)) {
        (Some(a), Some(b)) => (a, b),
        _ => unreachable!(),
    }
}
