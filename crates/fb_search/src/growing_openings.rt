//! A minus blossom of trees that grow together is opened.

ghost use Rattle.std.specs.Prelude.{IfOk, OnOk};
ghost use Rattle.fb_obstacles.specs.declared.obstacle.Obstacle.TheVariants.{BlossomEmpty};
ghost use Rattle.fb_search.specs.InternalGrowing.{IsGrowing, growing_of};
ghost use Rattle.fb_search.specs.InternalGrowth.{AreGrowing, Blocks, GrowsOn};
ghost use Rattle.fb_search.specs.InternalPaces.{ArePaced};

use crate::ending::{add_matches, forget_all};
use crate::growing::{Growing, GrowingPieces};
use crate::growing_pieces::into_growing;
use crate::growing_rings::nodes_on;
use crate::opening::{child_at, enter_way, taken_apart};
use fb_graph::{NoMemory, Scope};
use fb_obstacles::watch_node;
use fb_regions::{NodeId, Role};
use fb_trees::set_paces;
use std::alloc::Global;

impl<'a> Growing<'a> {
    /// The minus blossom has one layer, of value 0, and is opened: the children on the even path between its two links
    /// take its place in its tree, and the others are matched in pairs.
    pub(crate) fn open(self, alloc: Global, node: NodeId) -> Result<Growing<'a>, NoMemory>
        requires { Blocks self (BlossomEmpty node) }
        ensures { IfOk result (GrowsOn self.entry) }
    {
        let Growing {
            parts,
            forest,
            watch,
        } = self;
        let mut pieces = GrowingPieces {
            parts,
            forest,
            watch,
        };
        let done = open_node(alloc, &mut pieces, node);
        into_growing(pieces, done)
    }
}

/// Opens the minus blossom, puts the children on the even path between its two links in its place in its tree, and matches
/// the others in pairs. All edges at its vertices are watched from now on, and nothing is known of their slacks, since some
/// of the children become plus.
fn open_node(alloc: Global, pieces: &mut GrowingPieces<'_>, node: NodeId) -> Result<(), NoMemory>
    requires paced { ArePaced pieces.old.parts pieces.old.forest }
    requires growing { IsGrowing (growing_of pieces.old) }
    requires empty { Blocks (growing_of pieces.old) (BlossomEmpty node) }
    ensures { OnOk result (AreGrowing (growing_of pieces.old) pieces.new) }
{
    let GrowingPieces {
        parts,
        forest,
        watch,
    } = pieces;
    let scope = *parts.regions.scope();
    scope.limits();
    watch_node(watch, &scope, &parts.regions, node);
    watch.keeps();
    let branch = forest.branch(node);
    let above = child_at(parts, node, branch.tree);
    let below = child_at(parts, node, branch.matched);
    parts.regions.set_pace(node, Role::Out);
    parts.regions.split_node(node)?;
    let cycle = parts.blossoms.open_up(node);
    let apart = taken_apart(alloc, &cycle, above, below)?;
    forest.replace(alloc, &[node], &apart.way, &parts.links)?;
    forget_all(&mut parts.links, &apart.left);
    enter_way(watch, &parts.regions, forest, &apart.way)?;
    let way = nodes_on(alloc, &apart.way)?;
    set_paces(&mut parts.regions, forest, &way);
    add_matches(alloc, &mut parts.matching, &apart.matches)
}
