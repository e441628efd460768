ghost use Rattle.std.specs.Prelude.{◌≡◌, ◌≢◌, true, false, map, IfOk, OnErr, OnOk};
ghost use Rattle.fb_graph.specs.Nests.{AreMany};
ghost use Rattle.fb_laws.specs.Trees.{branches_beside, path_to};
ghost use Rattle.fb_trees.specs.Branches.{entries_of, entry_of};
ghost use Rattle.fb_trees.specs.Rooted.{IsBranchAt, IsMinus, IsPlus, IsRooted, attached_grown, bare, is_node, role_in};
ghost use Rattle.fb_links.specs.Table.{is_live};
ghost use Rattle.fb_trees.specs.Replacements.{AreLinkedOn, IsReplaced, MayReplace};
ghost use Rattle.fb_trees.specs.TreeSteps.{IsCycle, path_up};

use crate::steps::branches_beside;
use crate::{Branch, CycleStep, Forest, LinkId, Links, NoMemory, NodeId, Role, Roles};
use std::alloc::Global;
use std::marker::Model;

/// The alternating tree of one search (Edmonds 1965): a forest of one tree. Contracts see its root and its branches, the
/// newest one first. A call that returns `NoMemory` leaves the tree as it was.
#[derive(Drop)]
pub struct Tree {
    /// Its only tree has the number 0.
    pub(crate) forest: Forest,
}

impl Model for Tree {
    ghost use Rattle.std.specs.Prelude.{◌≡◌};
    ghost use Rattle.fb_trees.specs.Branches.{Grown, grown_code};
    ghost use Rattle.fb_trees.specs.InternalLoneTrees.{alone, only_tree};

    ghost Value = { Grown };

    ghost coded = { grown_code };

    ghost view = { λ t. only_tree t.forest };

    ghost invariant = { λ t. t.forest ≡ alone (only_tree t.forest) };
}

impl Tree {
    /// The tree of the root alone, a plus node.
    pub fn start(alloc: Global, root: NodeId) -> Result<Tree, NoMemory>
        ensures { IfOk result (λ tree. tree ≡ bare root) }
    {
        let forest = Forest::start(alloc, &[root])?;
        Ok(Tree { forest })
    }

    /// Does nothing. Its clause says what every tree keeps.
    pub fn keeps(&self)
        ensures { IsRooted self.now.root self.now.branches }
    {
        self.forest.keeps();
    }

    /// Puts `minus` under the plus node by the link, and the node of `matched` under `minus` by the link of `matched`,
    /// which it is matched by.
    pub fn attach(
        &mut self,
        alloc: Global,
        plus: NodeId,
        link: LinkId,
        minus: NodeId,
        matched: CycleStep,
        links: &Links,
    ) -> Result<(), NoMemory>
        requires link { is_live links.now link ≡ true }
        requires matched_link { is_live links.now matched.link ≡ true }
        requires plus { IsPlus self.old plus }
        requires minus { is_node self.old minus ≡ false }
        requires matched { is_node self.old matched.node ≡ false }
        requires apart { minus ≢ matched.node }
        ensures ok { OnOk result (self.new ≡ attached_grown self.old (record { parent = plus; tree = link; minus = minus; matched = matched.link; plus = matched.node })) }
        ensures err { OnErr result (self.new ≡ self.old) }
    {
        self.forest.attach(alloc, plus, link, minus, matched, links)
    }

    /// The root of the tree.
    pub fn root(&self) -> NodeId
        ensures { result ≡ self.now.root }
    {
        let Some(root) = self.forest.root(0) else {
            unreachable!()
        };
        root
    }

    /// The branches, the oldest one first. The tree's nodes are its root, a plus node, and those of its branches.
    pub fn branches(&self) -> &[Branch]
        ensures { entries_of result.now ≡ self.now.branches }
    {
        self.forest.branches(0)
    }

    /// The role of the node; `Out` if it is not in the tree.
    pub fn role(&self, node: NodeId) -> Role
        ensures { result ≡ role_in self.now node }
    {
        self.forest.role(node)
    }

    /// The branch of a minus node. Constant time.
    pub fn branch(&self, minus: NodeId) -> Branch
        requires { IsMinus self.now minus }
        ensures { IsBranchAt self.now minus (entry_of result) }
    {
        self.forest.branch(minus)
    }

    /// The nodes from a node of the tree up, each with the link to its parent. The root is not listed.
    pub fn path_to_root(&self, alloc: Global, node: NodeId) -> Result<Vec<CycleStep>, NoMemory>
        requires { is_node self.now node ≡ true }
        ensures { IfOk result (λ path. path.items ≡ path_up self.now node) }
    {
        self.forest.path_to_root(alloc, node)
    }

    /// The cycle that a link between the plus nodes a and b closes, from its base on, where the paths to the two part.
    /// Each step's link leads to the next step's node, that of the last one back to the base. The nodes are an odd number
    /// of at least three, each once.
    pub fn cycle_of(
        &self,
        alloc: Global,
        a: NodeId,
        b: NodeId,
        closing: LinkId,
        links: &Links,
    ) -> Result<Vec<CycleStep>, NoMemory>
        requires closing { is_live links.now closing ≡ true }
        requires first { IsPlus self.now a }
        requires second { IsPlus self.now b }
        requires apart { a ≢ b }
        ensures cycle { IfOk result (λ cycle. IsCycle self.now a b closing cycle.items) }
        ensures many { IfOk result (λ cycle. AreMany (map (λ s. s.node) cycle.items)) }
    {
        self.forest.cycle_of(alloc, a, b, closing, links)
    }

    /// The branches from the root to the plus node, the one at the root first.
    pub fn branches_to(&self, alloc: Global, plus: NodeId) -> Result<Vec<Branch>, NoMemory>
        requires { IsPlus self.now plus }
        ensures { IfOk result (λ path. map entry_of path.items ≡ path_to self.now.branches plus) }
    {
        self.forest.branches_to(alloc, plus)
    }

    /// The branches that are not on the way from the root to the plus node, the newest one first. Takes time for each
    /// branch of the tree.
    pub fn branches_beside(&self, alloc: Global, plus: NodeId) -> Result<Vec<Branch>, NoMemory>
        ensures { IfOk result (λ others. map entry_of others.items ≡ branches_beside self.now.branches plus) }
    {
        branches_beside(alloc, self.branches(), plus)
    }

    /// Takes the nodes of `gone` out of the tree and puts those of `path` in their place. For a blossom formed of a
    /// cycle, `gone` is the cycle's nodes and `path` is the blossom. For a minus blossom opened, `gone` is the blossom,
    /// and `path` leads over its children from the one at which the link of the tree ends to the one at which the matched
    /// link ends: each step's link leads to the next child, and the last step's is not read.
    ///
    /// Takes time for each branch of the tree.
    pub fn replace(
        &mut self,
        alloc: Global,
        gone: &[NodeId],
        path: &[CycleStep],
        links: &Links,
    ) -> Result<(), NoMemory>
        requires replace { MayReplace self.old gone.now path.now }
        requires links { AreLinkedOn links.now path.now }
        ensures ok { OnOk result (IsReplaced self.old gone.now path.now self.new) }
        ensures err { OnErr result (self.new ≡ self.old) }
    {
        let _ = links;
        self.forest.replace_in(alloc, 0, gone, path)
    }
}

impl Roles for Tree {
    ghost role_of = { λ tree node. role_in tree node };

    fn role(&self, node: NodeId) -> Role {
        self.role(node)
    }
}
