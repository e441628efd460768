ghost use Rattle.std.specs.Prelude.{◌≡◌, ◌≢◌, ◌++◌, true, map, IfOk, OnOk};
ghost use Rattle.std.specs.Option.{option_map};
ghost use Rattle.fb_graph.specs.Nests.{AreMany};
ghost use Rattle.fb_laws.specs.Trees.{branches_beside, path_to};
ghost use Rattle.fb_links.specs.Table.{is_live};
ghost use Rattle.fb_trees.specs.Branches.{Grown, entries_of, entry_of};
ghost use Rattle.fb_trees.specs.Rooted.{IsBranchAt, IsMinus, IsPlus, IsRooted, is_node, role_in};
ghost use Rattle.fb_trees.specs.TreeSteps.{IsCycle, path_up, steps_up};
ghost use Rattle.fb_trees.specs.InternalPlaces.{branch_at};
ghost use Rattle.fb_trees.specs.InternalForests.{IsJoinedAs, IsOpenedAs};
ghost use Rattle.fb_trees.specs.Replacements.{MayJoin, MayOpen};

use crate::changes::{joined_branches, names_of, opened_branches, renamed_name};
use crate::one_tree::OneTree;
use crate::places::place_in;
use crate::steps::{
    branch_in, branches_beside, cycle_along, last_plus, push_step, push_up, shared_count,
};
use crate::{Branch, CycleStep, LinkId, Links, NoMemory, NodeId, Role};
use std::alloc::Global;
use std::marker::Model;

/// One tree, with a table that has the places of its nodes' branches. Several trees may share the table.
#[derive(Drop)]
pub struct TreeView<'a> {
    pub(crate) root: NodeId,
    /// The oldest one first.
    pub(crate) branches: &'a [Branch],
    /// The place in `branches` of the branch of each of the tree's nodes but the root, by the node's name.
    pub(crate) places: &'a [Option<usize>],
}

impl<'a> Model for TreeView<'a> {
    ghost use Rattle.fb_trees.specs.Branches.{Grown, grown_code, entries_of};
    ghost use Rattle.fb_trees.specs.InternalPlaces.{IsViewed};

    ghost Value = { Grown };

    ghost coded = { grown_code };

    ghost view = { λ t. record { root = t.root; branches = entries_of t.branches.now } };

    ghost invariant = { λ t. IsViewed t.root (entries_of t.branches.now) t.places.now };
}

impl TreeView<'_> {
    /// The role of a node of the tree.
    pub fn role(&self, node: NodeId) -> Role
        requires { is_node self.now node ≡ true }
        ensures { result ≡ role_in self.now node }
    {
        match self.branch_of(node) {
            Some(branch) if branch.plus == node => Role::Plus,
            Some(_) => Role::Minus,
            None => Role::Plus,
        }
    }

    /// The branch of a minus node. Constant time.
    pub fn branch(&self, minus: NodeId) -> Branch
        requires { IsMinus self.now minus }
        ensures { IsBranchAt self.now minus (entry_of result) }
    {
        let Some(branch) = self.branch_of(minus) else {
            unreachable!()
        };
        branch
    }

    /// The nodes from a node of the tree up, each with the link to its parent. The root is not listed.
    pub fn path_to_root(&self, alloc: Global, node: NodeId) -> Result<Vec<CycleStep>, NoMemory>
        requires { is_node self.now node ≡ true }
        ensures { IfOk result (λ path. path.items ≡ path_up self.now node) }
    {
        let mut path = Vec::new(alloc);
        match self.branch_of(node) {
            Some(branch) if branch.minus == node => {
                push_step(&mut path, node, branch.tree)?;
                self.push_path(alloc, branch.parent, &mut path)?;
                Ok(path)
            }
            _ => {
                self.push_path(alloc, node, &mut path)?;
                Ok(path)
            }
        }
    }

    /// The cycle that a link between the plus nodes a and b closes, from its base on, where the paths to the two part.
    /// Each step's link leads to the next step's node, that of the last one back to the base. The nodes are an odd number
    /// of at least three, each once.
    pub fn cycle_of(
        &self,
        alloc: Global,
        a: NodeId,
        b: NodeId,
        closing: LinkId,
    ) -> Result<Vec<CycleStep>, NoMemory>
        requires first { IsPlus self.now a }
        requires second { IsPlus self.now b }
        requires apart { a ≢ b }
        ensures cycle { IfOk result (λ cycle. IsCycle self.now a b closing cycle.items) }
        ensures many { IfOk result (λ cycle. AreMany (map (λ s. s.node) cycle.items)) }
    {
        let up = self.branches_to(alloc, a)?;
        let down = self.branches_to(alloc, b)?;
        let shared = shared_count(&up, &down);
        let (shared_up, up) = up.split_at(shared);
        let (_shared_down, down) = down.split_at(shared);
        cycle_along(alloc, last_plus(self.root, shared_up), up, closing, down)
    }

    /// The branches from the root to the plus node, the one at the root first.
    pub fn branches_to(&self, alloc: Global, plus: NodeId) -> Result<Vec<Branch>, NoMemory>
        requires { IsPlus self.now plus }
        ensures path { IfOk result (λ path. map entry_of path.items ≡ path_to self.now.branches plus) }
        ensures kept { IsRooted self.now.root self.now.branches }
    {
        let mut path = Vec::new(alloc);
        let mut node = plus;
        while let Some(branch) = self.branch_of(node) {
            path.push(branch)?;
            node = branch.parent;
        }
        path.reverse();
        Ok(path)
    }

    /// The branches that are not on the way from the root to the plus node, the newest one first. Takes time for each
    /// branch of the tree.
    pub fn branches_beside(&self, alloc: Global, plus: NodeId) -> Result<Vec<Branch>, NoMemory>
        ensures { IfOk result (λ others. map entry_of others.items ≡ branches_beside self.now.branches plus) }
    {
        branches_beside(alloc, self.branches, plus)
    }

    /// The tree with the blossom in the place of the nodes.
    pub fn joined(
        &self,
        alloc: Global,
        gone: &[NodeId],
        blossom: NodeId,
    ) -> Result<OneTree, NoMemory>
        requires { MayJoin self.now gone.now blossom }
        ensures { IfOk result (IsJoinedAs self.now gone.now blossom) }
    {
        let inside = names_of(alloc, gone)?;
        let branches = joined_branches(alloc, self.branches, &inside, blossom)?;
        Ok(OneTree {
            root: renamed_name(self.root, &inside, blossom),
            branches,
            live: true,
        })
    }

    /// The tree with the nodes of the path in the place of the minus node.
    pub fn opened(
        &self,
        alloc: Global,
        blossom: NodeId,
        path: &[CycleStep],
    ) -> Result<OneTree, NoMemory>
        requires { MayOpen self.now blossom path.now }
        ensures { IfOk result (IsOpenedAs self.now blossom path.now) }
    {
        let Some(place) = place_in(self.places, blossom) else {
            unreachable!()
        };
        let branches = opened_branches(alloc, self.branches, place, path)?;
        Ok(OneTree {
            root: self.root,
            branches,
            live: true,
        })
    }

    /// Adds the nodes from the plus node up, each with the link to its parent.
    fn push_path(
        &self,
        alloc: Global,
        plus: NodeId,
        steps: &mut Vec<CycleStep>,
    ) -> Result<(), NoMemory>
        requires { IsPlus self.now plus }
        ensures { OnOk result (steps.new.items ≡ steps.old.items ++ steps_up (path_to self.now.branches plus)) }
    {
        let path = self.branches_to(alloc, plus)?;
        push_up(steps, &path)
    }

    /// The branch of a node of the tree. The root has none.
    fn branch_of(&self, node: NodeId) -> Option<Branch>
        requires { is_node self.now node ≡ true }
        ensures kept { IsRooted self.now.root self.now.branches }
        ensures branch { option_map entry_of result ≡ branch_at self.now.branches node }
    {
        let place = place_in(self.places, node)?;
        Some(branch_in(self.branches, place))
    }
}
