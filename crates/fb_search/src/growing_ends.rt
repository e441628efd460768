//! The ways in which trees that grow together end: their nodes are matched, and they are dissolved.

ghost use Rattle.std.specs.Prelude.{ℕ, ◌≡◌, [], true, All, length, map, IfOk, OnOk};
ghost use Rattle.fb_graph.specs.Dual.{is_live};
ghost use Rattle.fb_graph.specs.Parity.{is_in};
ghost use Rattle.fb_half.specs.Parts.{IsPart};
ghost use Rattle.fb_half.specs.Values.{HasScope, part_of};
ghost use Rattle.fb_laws.specs.LinkNumbers.{links_dropped};
ghost use Rattle.fb_laws.specs.Trees.{minus_names};
ghost use Rattle.fb_trees.specs.Branches.{Grown};
ghost use Rattle.fb_trees.specs.Forests.{IsPlusNode, IsTreeOf, trees_in};
ghost use Rattle.fb_obstacles.specs.declared.obstacle.Obstacle.TheVariants.{Boundary};
ghost use Rattle.fb_search.specs.InternalEndings.{ended_matches};
ghost use Rattle.fb_search.specs.InternalGrowing.{GrowingValue, IsGrowing, growing_of};
ghost use Rattle.fb_search.specs.InternalGrowth.{AreGrowing, Blocks, GrowsOn};
ghost use Rattle.fb_search.specs.InternalPaces.{ArePaced};
ghost use Rattle.fb_search.specs.InternalMeetings.{IsBoundaryMatch};
ghost use Rattle.fb_search.specs.InternalTreeMeetings.{GrowsOut, HasMetTree, MeetsOutside};
ghost use Rattle.fb_search.specs.InternalGrowingEnds.{IsTreeMatched, MayMatchTree, WatchesEach};

use crate::ending::{TreeEnd, add_matches, forget_all, push_beside, swapped_along};
use crate::growing::{Growing, GrowingPieces};
use crate::growing_meets::Met;
use crate::growing_pieces::into_growing;
use fb_graph::{NoMemory, Scope};
use fb_half::{Match, Matching, Parts, Work, far_owner};
use fb_links::Links;
use fb_obstacles::{Watch, watch_node};
use fb_regions::{NodeId, Regions};
use fb_trees::{Branch, Forest, link_between, link_out, rest_tree};
use std::alloc::Global;

impl<'a> Growing<'a> {
    /// A tree meets the boundary over the edge: its nodes are matched, and it is dissolved.
    pub(crate) fn end_at_boundary(self, alloc: Global, edge: u32) -> Result<Growing<'a>, NoMemory>
        requires { Blocks self (Boundary edge) }
        ensures { IfOk result (GrowsOn self.entry) }
    {
        let plus = self.plus_leading_out(edge);
        let Growing {
            parts,
            forest,
            watch,
        } = self;
        let mut pieces = GrowingPieces {
            parts,
            forest,
            watch,
        };
        let done = end_over(alloc, &mut pieces, edge, plus);
        into_growing(pieces, done)
    }

    /// The part once no tree is left, and the forest and the watch that were lent.
    pub(crate) fn finish(self, alloc: Global) -> Result<(Work<'a>, Forest, Watch), NoMemory>
        requires { trees_in self.forest ≡ [] }
        ensures part { IfOk result (λ r. r.0 ≡ self.entry.part) }
        ensures room { IfOk result (λ r. r.2.edge_count ≡ self.entry.watched.edge_count) }
    {
        let Growing {
            parts,
            forest,
            watch,
        } = self;
        Ok((boxed(alloc, parts)?, forest, watch))
    }

    /// The plus node from which the edge leads to the boundary.
    fn plus_leading_out(&self, edge: u32) -> NodeId
        requires { Blocks self.now (Boundary edge) }
        ensures { GrowsOut self.now edge result }
    {
        let regions = &self.parts.regions;
        let (first, second) = regions.scope().ends(edge);
        match (regions.cover_of(first), regions.cover_of(second)) {
            (Some(plus), _) | (_, Some(plus)) => plus,
            (None, None) => unreachable!(),
        }
    }
}

/// The part of these pieces, which it puts into a box.
fn boxed<'a>(alloc: Global, parts: Parts<'a>) -> Result<Work<'a>, NoMemory>
    requires scope { HasScope parts }
    requires part { IsPart (part_of parts) }
    ensures { IfOk result (λ work. work ≡ part_of parts.entry) }
{
    let parts = Box::new(alloc, parts)?;
    Ok(Work::from_parts(parts))
}

/// Matches the plus node over the edge to the boundary, and the other nodes of its tree by links of the tree.
fn end_over(
    alloc: Global,
    pieces: &mut GrowingPieces<'_>,
    edge: u32,
    plus: NodeId,
) -> Result<(), NoMemory>
    requires paced { ArePaced pieces.old.parts pieces.old.forest }
    requires growing { IsGrowing (growing_of pieces.old) }
    requires leads { GrowsOut (growing_of pieces.old) edge plus }
    ensures { OnOk result (AreGrowing (growing_of pieces.old) pieces.new) }
{
    let GrowingPieces {
        parts,
        forest,
        watch,
    } = pieces;
    parts.regions.scope().limits();
    forest.keeps();
    let link = link_out(alloc, &parts.regions, &mut parts.links, edge)?;
    let owner = far_owner(&parts.links, link, parts.regions.scope());
    parts.seams.list(alloc, owner, plus)?;
    watch_tree(watch, &parts.regions, forest, plus);
    watch.keeps();
    rest_tree(&mut parts.regions, forest, plus);
    match_tree(alloc, &mut parts.matching, &mut parts.links, forest, plus)?;
    let out = Match {
        link,
        first: plus,
        second: None,
    };
    parts.matching.add_match(alloc, out)?;
    Ok(())
}

/// The plus node meets a node that waits over the edge, and is matched with it: the tree of the plus node ends, and is
/// dissolved.
pub(crate) fn match_waiting(
    alloc: Global,
    pieces: &mut GrowingPieces<'_>,
    edge: u32,
    plus: NodeId,
    other: NodeId,
) -> Result<(), NoMemory>
    requires paced { ArePaced pieces.old.parts pieces.old.forest }
    requires growing { IsGrowing (growing_of pieces.old) }
    requires meets { MeetsOutside (growing_of pieces.old) edge plus other }
    requires waits { is_in pieces.old.parts.matching.unmatched other ≡ true }
    ensures { OnOk result (AreGrowing (growing_of pieces.old) pieces.new) }
{
    let GrowingPieces {
        parts,
        forest,
        watch,
    } = pieces;
    parts.regions.scope().limits();
    forest.keeps();
    let link = link_between(alloc, &parts.regions, &mut parts.links, edge)?;
    watch_tree(watch, &parts.regions, forest, plus);
    watch.keeps();
    rest_tree(&mut parts.regions, forest, plus);
    match_tree(alloc, &mut parts.matching, &mut parts.links, forest, plus)?;
    parts.matching.take_unmatched(other);
    let over = Match {
        link,
        first: plus,
        second: Some(other),
    };
    parts.matching.add_match(alloc, over)?;
    Ok(())
}

/// The node was matched to the boundary, and is matched with the plus node: the tree of this one ends, and is dissolved.
pub(crate) fn release(
    alloc: Global,
    pieces: &mut GrowingPieces<'_>,
    met: Met,
) -> Result<(), NoMemory>
    requires paced { ArePaced pieces.old.parts pieces.old.forest }
    requires met { (w : GrowingValue) × HasMetTree w met (growing_of pieces.old) }
    requires boundary { IsBoundaryMatch met.taken met.other }
    ensures { OnOk result ((w : GrowingValue) → HasMetTree w met (growing_of pieces.old) → AreGrowing w pieces.new) }
{
    let GrowingPieces {
        parts,
        forest,
        watch,
    } = pieces;
    forest.keeps();
    parts.links.forget(met.taken.link);
    watch_tree(watch, &parts.regions, forest, met.plus);
    watch.keeps();
    rest_tree(&mut parts.regions, forest, met.plus);
    match_tree(
        alloc,
        &mut parts.matching,
        &mut parts.links,
        forest,
        met.plus,
    )?;
    let out = Match {
        link: met.link,
        first: met.plus,
        second: Some(met.other),
    };
    parts.matching.add_match(alloc, out)?;
    Ok(())
}

/// How the nodes of the plus node's tree, which has this root, are matched when it ends at that node: along the path from
/// the root the links of the tree and the matched links change places, and all other minus nodes stay matched as they are.
fn tree_end_in(
    alloc: Global,
    forest: &Forest,
    root: NodeId,
    plus: NodeId,
) -> Result<TreeEnd, NoMemory>
    requires plus { IsPlusNode forest.now plus }
    requires root { (t : ℕ) (g : Grown) → IsTreeOf forest.now plus t g → g.root ≡ root }
    ensures matches { IfOk result (λ end. (t : ℕ) (g : Grown) → IsTreeOf forest.now plus t g → end.matches.items ≡ ended_matches g.branches plus) }
    ensures gone { IfOk result (λ end. (t : ℕ) (g : Grown) → IsTreeOf forest.now plus t g → end.gone.items ≡ links_dropped g.branches plus) }
{
    forest.keeps();
    let mut path = forest.path_to_root(alloc, plus)?;
    path.reverse();
    let others = forest.branches_beside(alloc, plus)?;
    let mut end = swapped_along(alloc, root, &path)?;
    push_beside(&mut end, &others)?;
    Ok(end)
}

/// Matches the nodes of the plus node's tree, all but this node, by links of the tree, removes the links that match no node
/// then, and dissolves the tree.
pub(crate) fn match_tree(
    alloc: Global,
    matching: &mut Matching,
    links: &mut Links,
    forest: &mut Forest,
    plus: NodeId,
) -> Result<(), NoMemory>
    requires { (t : ℕ) × (g : Grown) × MayMatchTree t g plus matching.old links.old forest.old }
    ensures { OnOk result ((t : ℕ) (g : Grown) → IsTreeOf forest.old plus t g → IsTreeMatched t g plus matching.old links.old forest.old matching.new links.new forest.new) }
{
    forest.keeps();
    let Some(tree) = forest.tree_of(plus) else {
        unreachable!()
    };
    let Some(root) = forest.root(tree) else {
        unreachable!()
    };
    let end = tree_end_in(alloc, forest, root, plus)?;
    forest.dissolve(tree);
    matching.take_unmatched(root);
    forget_all(links, &end.gone);
    add_matches(alloc, matching, &end.matches)
}

/// Watches the edges at the minus nodes of the plus node's tree. They limit plus nodes of other trees once this one is
/// dissolved.
pub(crate) fn watch_tree<S: Scope>(
    watch: &mut Watch,
    regions: &Regions<S>,
    forest: &Forest,
    plus: NodeId,
)
    requires plus { IsPlusNode forest.now plus }
    requires live { (t : ℕ) (g : Grown) → IsTreeOf forest.now plus t g → All (λ n. is_live regions.now.nodes n ≡ true) (minus_names g.branches) }
    requires room { watch.old.edge_count ≡ length (S.problem regions.now.scope).edges }
    ensures { (t : ℕ) (g : Grown) → IsTreeOf forest.now plus t g → WatchesEach (S.problem regions.now.scope) regions.now.nodes (minus_names g.branches) watch.old watch.new }
{
    forest.keeps();
    let Some(tree) = forest.tree_of(plus) else {
        unreachable!()
    };
    watch_branches(watch, regions, forest.branches(tree));
}

/// Watches the edges at the minus nodes of the branches.
fn watch_branches<S: Scope>(watch: &mut Watch, regions: &Regions<S>, branches: &[Branch])
    requires live { All (λ b. is_live regions.now.nodes b.minus ≡ true) branches.now }
    requires room { watch.old.edge_count ≡ length (S.problem regions.now.scope).edges }
    ensures { WatchesEach (S.problem regions.now.scope) regions.now.nodes (map (λ b. b.minus) branches.now) watch.old watch.new }
{
    for branch in branches {
        watch_node(watch, regions.scope(), regions, branch.minus);
    }
}
