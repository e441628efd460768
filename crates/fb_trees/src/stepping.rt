//! How trees move the regions of their nodes: each node has the pace of its role, and a step is a step of the clock.

ghost use Rattle.std.specs.Prelude.{◌≡◌, ◌&&◌, ℕ, if◌then◌else◌};
ghost use Rattle.fb_graph.specs.Dual.{is_live};
ghost use Rattle.fb_graph.specs.Parity.{is_in};
ghost use Rattle.fb_graph.specs.Steps.{MayStep, stepped_nodes};
ghost use Rattle.fb_regions.specs.Paces.{IsRepaced, pace_in};
ghost use Rattle.fb_regions.specs.declared.roles.Role.TheVariants.{Out};
ghost use Rattle.fb_trees.specs.Branches.{Grown};
ghost use Rattle.fb_trees.specs.Forests.{AreInPace, IsInside, IsTreeOf, all_roles, role_among, trees_in};
ghost use Rattle.fb_trees.specs.Rooted.{is_node};
ghost use Rattle.fb_trees.specs.TreesOver.{AreTreesOver, branch_names};

use crate::{Branch, Forest, NodeId, Role};
use fb_graph::Scope;
use fb_regions::Regions;

/// Each minus node of all trees shrinks by this length, and each plus node grows by it; nothing else changes. All of them
/// move with the clock, so that it takes constant time. Takes no memory.
pub fn grow_all<S: Scope>(regions: &mut Regions<S>, forest: &Forest, length: u64)
    requires forest { AreTreesOver (S.problem regions.old.scope) (trees_in forest.now) regions.old.nodes }
    requires paces { AreInPace regions.old forest.now }
    requires may { MayStep (S.problem regions.old.scope) (all_roles (trees_in forest.now)) regions.old.nodes length }
    ensures { regions.new ≡ record regions.old { nodes = stepped_nodes (all_roles (trees_in forest.now)) length regions.old.nodes } }
{
    let _ = forest;
    regions.keeps();
    regions.advance(length);
}

/// Gives each of these nodes the pace of its role in the forest.
pub fn set_paces<S: Scope>(regions: &mut Regions<S>, forest: &Forest, nodes: &[NodeId])
    ensures same { IsRepaced regions.old regions.new }
    ensures paces { (n : ℕ) → pace_in regions.new n ≡ (if is_in nodes.now n && is_live regions.old.nodes n then role_among forest.now n else pace_in regions.old n) }
{
    for node in nodes {
        regions.set_pace(*node, forest.role(*node));
    }
}

/// The nodes of the node's tree stop. Takes time for each branch.
pub fn rest_tree<S: Scope>(regions: &mut Regions<S>, forest: &Forest, node: NodeId)
    requires inside { IsInside forest.now node }
    ensures same { IsRepaced regions.old regions.new }
    ensures paces { (t : ℕ) (g : Grown) → IsTreeOf forest.now node t g → (n : ℕ) → pace_in regions.new n ≡ (if is_node g n && is_live regions.old.nodes n then Out else pace_in regions.old n) }
{
    let Some(tree) = forest.tree_of(node) else {
        unreachable!()
    };
    let Some(root) = forest.root(tree) else {
        unreachable!()
    };
    regions.set_pace(root, Role::Out);
    rest_branches(regions, forest.branches(tree));
}

/// The nodes of the branches stop.
fn rest_branches<S: Scope>(regions: &mut Regions<S>, branches: &[Branch])
    ensures same { IsRepaced regions.old regions.new }
    ensures paces { (n : ℕ) → pace_in regions.new n ≡ (if is_in (branch_names branches.now) n && is_live regions.old.nodes n then Out else pace_in regions.old n) }
{
    for branch in branches {
        regions.set_pace(branch.minus, Role::Out);
        regions.set_pace(branch.plus, Role::Out);
    }
}
