//! Two plus nodes of trees that grow together meet: of one tree, whose cycle becomes a blossom, or of two, which are matched
//! with each other and dissolved.

ghost use Rattle.std.specs.Prelude.{◌≡◌, true, false, IfOk, OnOk};
ghost use Rattle.fb_obstacles.specs.declared.obstacle.Obstacle.TheVariants.{PlusPair};
ghost use Rattle.fb_trees.specs.Forests.{ArePlusTogether, IsPlusNode};
ghost use Rattle.fb_search.specs.InternalGrowing.{IsGrowing, growing_of};
ghost use Rattle.fb_search.specs.InternalGrowth.{AreGrowing, Blocks, GrowsOn};
ghost use Rattle.fb_search.specs.InternalPaces.{ArePaced};
ghost use Rattle.fb_search.specs.InternalTreeMeetings.{IsGrowingPair};

use crate::growing::{Growing, GrowingPieces};
use crate::growing_ends::{match_tree, watch_tree};
use crate::growing_pieces::into_growing;
use crate::growing_rings::close;
use crate::growing_turns::over_ends;
use fb_graph::NoMemory;
use fb_half::Match;
use fb_regions::NodeId;
use fb_trees::{link_between, rest_tree};
use std::alloc::Global;

impl<'a> Growing<'a> {
    /// The tight edge leads between two plus nodes. In one tree it closes a cycle, which becomes a blossom; the nodes of two
    /// trees are matched, the two with each other, and both trees are dissolved.
    pub(crate) fn join_or_match(self, alloc: Global, edge: u32) -> Result<Growing<'a>, NoMemory>
        requires { Blocks self (PlusPair edge) }
        ensures { IfOk result (GrowsOn self.entry) }
    {
        let (first, second) = self.paired(edge);
        let are_together = self.are_together(first, second);
        let Growing {
            parts,
            forest,
            watch,
        } = self;
        let mut pieces = GrowingPieces {
            parts,
            forest,
            watch,
        };
        let done = if are_together {
            close(alloc, &mut pieces, edge, first, second)
        } else {
            match_trees(alloc, &mut pieces, edge, first, second)
        };
        into_growing(pieces, done)
    }

    /// The two plus nodes that the edge links.
    fn paired(&self, edge: u32) -> (NodeId, NodeId)
        requires { Blocks self.now (PlusPair edge) }
        ensures pair { IsGrowingPair self.now edge result.0 result.1 }
        ensures first { IsPlusNode self.now.forest result.0 }
        ensures second { IsPlusNode self.now.forest result.1 }
    {
        over_ends(&self.parts.regions, edge)
    }

    /// Whether the two plus nodes are of one tree.
    fn are_together(&self, first: NodeId, second: NodeId) -> bool
        requires first { IsPlusNode self.now.forest first }
        requires second { IsPlusNode self.now.forest second }
        ensures together { result ≡ true → ArePlusTogether self.now.forest first second }
        ensures apart { result ≡ false → ArePlusTogether self.now.forest first second → ⊥ }
    {
        match (self.forest.tree_of(first), self.forest.tree_of(second)) {
            (Some(one), Some(other)) => one == other,
            _ => unreachable!(),
        }
    }
}

/// Matches the two plus nodes, which are of two trees, with each other over the edge, and the other nodes of both trees by
/// links of their trees.
fn match_trees(
    alloc: Global,
    pieces: &mut GrowingPieces<'_>,
    edge: u32,
    first: NodeId,
    second: NodeId,
) -> Result<(), NoMemory>
    requires paced { ArePaced pieces.old.parts pieces.old.forest }
    requires growing { IsGrowing (growing_of pieces.old) }
    requires pair { IsGrowingPair (growing_of pieces.old) edge first second }
    requires apart { ArePlusTogether pieces.old.forest first second → ⊥ }
    ensures { OnOk result (AreGrowing (growing_of pieces.old) pieces.new) }
{
    let GrowingPieces {
        parts,
        forest,
        watch,
    } = pieces;
    forest.keeps();
    let link = link_between(alloc, &parts.regions, &mut parts.links, edge)?;
    watch_tree(watch, &parts.regions, forest, first);
    watch_tree(watch, &parts.regions, forest, second);
    watch.keeps();
    rest_tree(&mut parts.regions, forest, first);
    rest_tree(&mut parts.regions, forest, second);
    match_tree(alloc, &mut parts.matching, &mut parts.links, forest, first)?;
    match_tree(alloc, &mut parts.matching, &mut parts.links, forest, second)?;
    let over = Match {
        link,
        first,
        second: Some(second),
    };
    parts.matching.add_match(alloc, over)?;
    Ok(())
}
