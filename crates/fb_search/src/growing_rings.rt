//! Blossoms of trees that grow together: a cycle of one of the trees becomes a blossom, and a minus blossom is opened.

ghost use Rattle.std.specs.Prelude.{◌≡◌, ◌≢◌, ℕ, true, false, All, IfOk, OnOk, Some, length, map};
ghost use Rattle.fb_graph.specs.Parity.{is_in};
ghost use Rattle.fb_graph.specs.Dual.{is_live};
ghost use Rattle.fb_half.specs.Matchings.{listed_names};
ghost use Rattle.fb_half.specs.Parts.{problem_in};
ghost use Rattle.fb_obstacles.specs.declared.obstacle.Obstacle.TheVariants.{ZeroMinus};
ghost use Rattle.fb_search.specs.InternalClosings.{IsReplacedBy, WatchesMinusBy};
ghost use Rattle.fb_search.specs.InternalGrowing.{IsGrowing, growing_of};
ghost use Rattle.fb_search.specs.InternalTreeMeetings.{IsGrowingPair};
ghost use Rattle.fb_search.specs.InternalGrowingRings.{ClosesIn, IsClosedIn};
ghost use Rattle.fb_search.specs.InternalGrowth.{AreGrowing, Blocks, GrowsOn};
ghost use Rattle.fb_search.specs.InternalPaces.{ArePaced};
ghost use Rattle.fb_trees.specs.Branches.{Grown};
ghost use Rattle.fb_trees.specs.Forests.{ArePlusTogether, IsInside, IsTreeOf, role_among, tree_at};

use crate::growing::{Growing, GrowingPieces};
use crate::growing_pieces::into_growing;
use fb_graph::{NoMemory, Scope};
use fb_half::Matching;
use fb_obstacles::{Watch, watch_node};
use fb_regions::{NodeId, Regions, Role};
use fb_trees::{CycleStep, Forest, LinkId, TreeId, link_between, set_paces};
use std::alloc::Global;

impl<'a> Growing<'a> {
    /// The minus node is a defect of radius 0: both of its links, joined at the defect, are a tight link between its
    /// parent and its child, and the three nodes become a blossom.
    pub(crate) fn round(self, alloc: Global, node: NodeId) -> Result<Growing<'a>, NoMemory>
        requires { Blocks self (ZeroMinus node) }
        ensures { IfOk result (GrowsOn self.entry) }
    {
        let Growing {
            parts,
            forest,
            watch,
        } = self;
        let mut pieces = GrowingPieces {
            parts,
            forest,
            watch,
        };
        let done = round_node(alloc, &mut pieces, node);
        into_growing(pieces, done)
    }
}

/// Makes the link over the edge between two plus nodes of one tree, and the cycle that it closes a blossom, a plus node of
/// that tree.
pub(crate) fn close(
    alloc: Global,
    pieces: &mut GrowingPieces<'_>,
    edge: u32,
    first: NodeId,
    second: NodeId,
) -> Result<(), NoMemory>
    requires paced { ArePaced pieces.old.parts pieces.old.forest }
    requires growing { IsGrowing (growing_of pieces.old) }
    requires pair { IsGrowingPair (growing_of pieces.old) edge first second }
    requires together { ArePlusTogether pieces.old.forest first second }
    ensures { OnOk result (AreGrowing (growing_of pieces.old) pieces.new) }
{
    let GrowingPieces { parts, .. } = pieces;
    let closing = link_between(alloc, &parts.regions, &mut parts.links, edge)?;
    join_cycle(alloc, pieces, first, second, closing)
}

/// Joins both links of the minus node, and makes the cycle that the new link closes a blossom.
fn round_node(alloc: Global, pieces: &mut GrowingPieces<'_>, node: NodeId) -> Result<(), NoMemory>
    requires paced { ArePaced pieces.old.parts pieces.old.forest }
    requires growing { IsGrowing (growing_of pieces.old) }
    requires zero { Blocks (growing_of pieces.old) (ZeroMinus node) }
    ensures { OnOk result (AreGrowing (growing_of pieces.old) pieces.new) }
{
    let GrowingPieces { parts, forest, .. } = pieces;
    let branch = forest.branch(node);
    let closing = parts.links.join_ends(alloc, branch.tree, branch.matched)?;
    join_cycle(alloc, pieces, branch.plus, branch.parent, closing)
}

/// Makes the cycle that the link closes between two plus nodes of one tree a blossom, a plus node of that tree.
fn join_cycle(
    alloc: Global,
    pieces: &mut GrowingPieces<'_>,
    first: NodeId,
    second: NodeId,
    closing: LinkId,
) -> Result<(), NoMemory>
    requires paced { ArePaced pieces.old.parts pieces.old.forest }
    requires closes { ClosesIn (growing_of pieces.old) first second closing }
    ensures { OnOk result (AreGrowing (growing_of pieces.old) pieces.new) }
{
    let GrowingPieces { parts, forest, .. } = pieces;
    let cycle = forest.cycle_of(alloc, first, second, closing, &parts.links)?;
    let nodes = nodes_on(alloc, &cycle)?;
    join_steps(alloc, pieces, closing, cycle, &nodes)
}

/// Makes the cycle of these steps and nodes, which the link closes, a blossom, a plus node of their tree.
fn join_steps(
    alloc: Global,
    pieces: &mut GrowingPieces<'_>,
    closing: LinkId,
    cycle: Vec<CycleStep>,
    nodes: &[NodeId],
) -> Result<(), NoMemory>
    requires paced { ArePaced pieces.old.parts pieces.old.forest }
    requires cycle { IsClosedIn (growing_of pieces.old) closing cycle.items }
    requires nodes { nodes.now ≡ map (λ s. s.node) cycle.items }
    ensures { OnOk result (AreGrowing (growing_of pieces.old) pieces.new) }
{
    let GrowingPieces {
        parts,
        forest,
        watch,
    } = pieces;
    watch_minus(watch, &parts.regions, forest, nodes);
    watch.keeps();
    parts.regions.scope().limits();
    parts.blossoms.keeps();
    let blossom = parts.blossoms.form(alloc, cycle, &parts.links)?;
    parts.regions.join_nodes(alloc, blossom, nodes)?;
    let tree = number_of(forest, nodes[0]);
    let root = root_of(forest, tree);
    let step = CycleStep {
        node: blossom,
        link: closing,
    };
    forest.replace(alloc, nodes, &[step], &parts.links)?;
    set_paces(&mut parts.regions, forest, nodes);
    set_paces(&mut parts.regions, forest, &[blossom]);
    replace_unmatched(alloc, &mut parts.matching, root, root_of(forest, tree))
}

/// The nodes of the steps.
pub(crate) fn nodes_on(alloc: Global, steps: &[CycleStep]) -> Result<Vec<NodeId>, NoMemory>
    ensures { IfOk result (λ nodes. nodes.items ≡ map (λ s. s.node) steps.now) }
{
    steps.iter().map(|step| step.node).collect(alloc)
}

/// Lists the new name as unmatched in the place of the old one.
fn replace_unmatched(
    alloc: Global,
    matching: &mut Matching,
    old: NodeId,
    new: NodeId,
) -> Result<(), NoMemory>
    requires listed { is_in matching.old.unmatched old ≡ true }
    requires fresh { new ≢ old → is_in (listed_names matching.old) new ≡ false }
    ensures { OnOk result (IsReplacedBy old new matching.old matching.new) }
{
    if new != old {
        matching.take_unmatched(old);
        matching.add_unmatched(alloc, new)?;
    }
    Ok(())
}

/// The number of the node's tree.
fn number_of(forest: &Forest, node: NodeId) -> TreeId
    requires { IsInside forest.now node }
    ensures { (t : ℕ) (g : Grown) → IsTreeOf forest.now node t g → result ≡ t }
{
    let Some(tree) = forest.tree_of(node) else {
        unreachable!()
    };
    tree
}

/// The root of the tree of that number.
fn root_of(forest: &Forest, tree: TreeId) -> NodeId
    requires { (g : Grown) × (tree_at forest.now tree ≡ Some g) }
    ensures { (g : Grown) → tree_at forest.now tree ≡ Some g → result ≡ g.root }
{
    let Some(root) = forest.root(tree) else {
        unreachable!()
    };
    root
}

/// Watches the edges at the minus nodes among these, since a plus node is about to hold their vertices.
fn watch_minus<S: Scope>(watch: &mut Watch, regions: &Regions<S>, forest: &Forest, nodes: &[NodeId])
    requires live { All (λ n. is_live regions.now.nodes n ≡ true) nodes.now }
    requires room { watch.old.edge_count ≡ length (S.problem regions.now.scope).edges }
    ensures { WatchesMinusBy (S.problem regions.now.scope) regions.now.nodes (role_among forest.now) nodes.now
        watch.old watch.new }
{
    for node in nodes {
        if forest.role(*node) == Role::Minus {
            watch_node(watch, regions.scope(), regions, *node);
        }
    }
}
