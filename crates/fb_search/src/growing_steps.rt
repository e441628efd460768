//! What removes an obstacle in place while trees grow, and the step of all trees.

ghost use Rattle.std.specs.Prelude.{◌≡◌, ◌≤◌, length};
ghost use Rattle.fb_graph.specs.Steps.{MayStep};
ghost use Rattle.fb_half.specs.Parts.{problem_in};
ghost use Rattle.fb_trees.specs.Forests.{trees_in};
ghost use Rattle.fb_obstacles.specs.declared.obstacle.Obstacle.TheVariants.{Absorb, LayerEmpty};
ghost use Rattle.fb_search.specs.InternalGrowing.{roles_among};
ghost use Rattle.fb_search.specs.InternalGrowth.{Blocks, GrowsOn, grown_by};

use crate::growing::Growing;
use fb_graph::{Scope, Steps};
use fb_obstacles::{free_end, watch_taken};
use fb_regions::NodeId;
use fb_trees::grow_all;
use std::sync::ledger::Ledger;

impl Growing<'_> {
    /// Each minus node of all trees shrinks by this much, and each plus node grows by it. The bounds fall by twice as much:
    /// the slack of an edge falls by at most that.
    pub(crate) fn step(&mut self, by: u64)
        requires some { 1 ≤ length (trees_in self.old.forest) }
        requires may { MayStep (problem_in self.old.part) (roles_among self.old.forest) self.old.part.nodes by }
        ensures { self.new ≡ grown_by by self.old }
    {
        let Growing {
            parts,
            forest,
            watch,
        } = self;
        parts.regions.scope().limits();
        grow_all(&mut parts.regions, forest, by);
        watch.lower(2 * by);
    }

    /// The plus node absorbs the vertex to which the tight edge leads. The edges of the vertex are watched from now on,
    /// but for those that lead to other vertices of the node. Counts a look for each.
    pub(crate) fn absorb<L: Ledger>(&mut self, edge: u32, looks: &mut Steps<L>)
        requires { Blocks self.old (Absorb edge) }
        ensures { GrowsOn self.old self.new }
    {
        let Growing { parts, watch, .. } = self;
        let scope = *parts.regions.scope();
        scope.limits();
        let taken = free_end(&scope, &parts.regions, edge);
        parts.regions.absorb(edge);
        watch_taken(watch, &scope, &parts.regions, &parts.regions, taken, looks);
        watch.keeps();
    }

    /// Removes the empty top layer of the minus node, so that no node holds its last vertex any longer. The edges of that
    /// vertex are watched from now on. Counts a look for each.
    pub(crate) fn uncover<L: Ledger>(&mut self, node: NodeId, looks: &mut Steps<L>)
        requires { Blocks self.old (LayerEmpty node) }
        ensures { GrowsOn self.old self.new }
    {
        let Growing { parts, watch, .. } = self;
        let scope = *parts.regions.scope();
        scope.limits();
        let freed = parts.regions.last_vertex(node);
        parts.regions.uncover(node);
        watch_taken(watch, &scope, &parts.regions, &parts.regions, freed, looks);
        watch.keeps();
    }
}
