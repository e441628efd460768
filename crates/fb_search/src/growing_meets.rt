//! A tree of several meets a node that is in none of them.

ghost use Rattle.std.specs.Prelude.{ℕ, ◌≡◌, true, IfOk, MatchOption, OnOk};
ghost use Rattle.fb_graph.specs.Parity.{is_in};
ghost use Rattle.fb_half.specs.Matchings.{matched_names, names_of};
ghost use Rattle.fb_obstacles.specs.declared.obstacle.Obstacle.TheVariants.{Meet};
ghost use Rattle.fb_search.specs.InternalGrowing.{GrowingValue, IsGrowing, growing_of};
ghost use Rattle.fb_search.specs.InternalGrowth.{AreGrowing, Blocks, GrowsOn};
ghost use Rattle.fb_search.specs.InternalPaces.{ArePaced};
ghost use Rattle.fb_search.specs.InternalMeetings.{IsBoundaryMatch, IsCouple};
ghost use Rattle.fb_search.specs.InternalTreeMeetings.{HasMetTree, MeetsOutside};

use crate::growing::{Growing, GrowingPieces};
use crate::growing_ends::{match_waiting, release};
use crate::growing_pieces::into_growing;
use fb_graph::{NoMemory, Scope};
use fb_half::{Match, Standing};
use fb_obstacles::{enter_minus, watch_node};
use fb_regions::NodeId;
use fb_trees::{CycleStep, LinkId, link_between, set_paces};
use std::alloc::Global;

/// A link that is made from a plus node to a matched one, whose match is taken out.
#[derive(Clone, Copy)]
pub(crate) struct Met {
    pub(crate) plus: NodeId,
    pub(crate) other: NodeId,
    pub(crate) link: LinkId,
    pub(crate) taken: Match,
}

impl<'a> Growing<'a> {
    /// A tree meets a node in no tree over the edge. A node that is matched to another joins the tree with it, as a minus
    /// and a plus node; one that is matched to the boundary, or waits, ends the tree, and is matched with the plus node.
    pub(crate) fn meet(self, alloc: Global, edge: u32) -> Result<Growing<'a>, NoMemory>
        requires { Blocks self (Meet edge) }
        ensures { IfOk result (GrowsOn self.entry) }
    {
        let (plus, other) = self.met_nodes(edge);
        let standing = self.parts.matching.standing(other);
        let Growing {
            parts,
            forest,
            watch,
        } = self;
        let mut pieces = GrowingPieces {
            parts,
            forest,
            watch,
        };
        let done = match standing {
            Standing::Unmatched(_) => match_waiting(alloc, &mut pieces, edge, plus, other),
            _ => meet_over(alloc, &mut pieces, edge, plus, other),
        };
        into_growing(pieces, done)
    }
}

/// The plus node meets the matched node over the edge.
fn meet_over(
    alloc: Global,
    pieces: &mut GrowingPieces<'_>,
    edge: u32,
    plus: NodeId,
    other: NodeId,
) -> Result<(), NoMemory>
    requires paced { ArePaced pieces.old.parts pieces.old.forest }
    requires growing { IsGrowing (growing_of pieces.old) }
    requires meets { MeetsOutside (growing_of pieces.old) edge plus other }
    requires matched { is_in (matched_names pieces.old.parts.matching.matches) other ≡ true }
    ensures { OnOk result (AreGrowing (growing_of pieces.old) pieces.new) }
{
    let met = link_outside(alloc, pieces, edge, plus, other)?;
    meet_linked(alloc, pieces, met)
}

/// The node to which the link was made joins the tree with its mate, or the tree ends with the node matched again.
fn meet_linked(alloc: Global, pieces: &mut GrowingPieces<'_>, met: Met) -> Result<(), NoMemory>
    requires paced { ArePaced pieces.old.parts pieces.old.forest }
    requires met { (w : GrowingValue) × HasMetTree w met (growing_of pieces.old) }
    requires name { is_in (names_of met.taken) met.other ≡ true }
    ensures { OnOk result ((w : GrowingValue) → HasMetTree w met (growing_of pieces.old) → AreGrowing w pieces.new) }
{
    match mate_of(met.taken, met.other) {
        Some(mate) => take_couple(alloc, pieces, met, mate),
        None => release(alloc, pieces, met),
    }
}

/// The node with which the match matches this one; none at the boundary.
fn mate_of(taken: Match, name: NodeId) -> Option<NodeId>
    requires { is_in (names_of taken) name ≡ true }
    ensures { MatchOption result (IsBoundaryMatch taken name) (IsCouple taken name) }
{
    match taken.second {
        Some(second) if second == name => Some(taken.first),
        second => second,
    }
}

/// Makes the link from the plus node over the edge to the matched node, and takes out the match of this node.
fn link_outside(
    alloc: Global,
    pieces: &mut GrowingPieces<'_>,
    edge: u32,
    plus: NodeId,
    other: NodeId,
) -> Result<Met, NoMemory>
    requires paced { ArePaced pieces.old.parts pieces.old.forest }
    requires growing { IsGrowing (growing_of pieces.old) }
    requires meets { MeetsOutside (growing_of pieces.old) edge plus other }
    requires matched { is_in (matched_names pieces.old.parts.matching.matches) other ≡ true }
    ensures paced { OnOk result (ArePaced pieces.new.parts pieces.new.forest) }
    ensures met { IfOk result (λ met. HasMetTree (growing_of pieces.old) met (growing_of pieces.new)) }
    ensures name { IfOk result (λ met. is_in (names_of met.taken) met.other ≡ true) }
{
    let GrowingPieces { parts, .. } = pieces;
    let link = link_between(alloc, &parts.regions, &mut parts.links, edge)?;
    let taken = parts.matching.take_match(other);
    Ok(Met {
        plus,
        other,
        link,
        taken,
    })
}

/// The node and its mate join the tree of the plus node, as a minus node under it and a plus node under that one.
fn take_couple(
    alloc: Global,
    pieces: &mut GrowingPieces<'_>,
    met: Met,
    mate: NodeId,
) -> Result<(), NoMemory>
    requires paced { ArePaced pieces.old.parts pieces.old.forest }
    requires met { (w : GrowingValue) × HasMetTree w met (growing_of pieces.old) }
    requires couple { IsCouple met.taken met.other mate }
    ensures { OnOk result ((w : GrowingValue) → HasMetTree w met (growing_of pieces.old) → AreGrowing w pieces.new) }
{
    let GrowingPieces {
        parts,
        forest,
        watch,
    } = pieces;
    let scope = *parts.regions.scope();
    scope.limits();
    let matched = CycleStep {
        node: mate,
        link: met.taken.link,
    };
    forest.attach(alloc, met.plus, met.link, met.other, matched, &parts.links)?;
    set_paces(&mut parts.regions, forest, &[met.other, mate]);
    enter_minus(watch, &parts.regions, met.other)?;
    watch_node(watch, &scope, &parts.regions, mate);
    watch.keeps();
    Ok(())
}
