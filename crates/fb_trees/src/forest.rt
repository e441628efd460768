ghost use Rattle.std.specs.Prelude.{◌≡◌, ◌≢◌, ◌≤◌, ◌<◌, ◌++◌, ◌∷◌, [], ℕ, true, false, map, set, length, IfOk, OnErr, OnOk, Option, Some, None, MatchOption};
ghost use Rattle.std.specs.Option.{option_map};
ghost use Rattle.fb_graph.specs.Certificate.{AreDistinct};
ghost use Rattle.fb_graph.specs.Nests.{AreMany};
ghost use Rattle.fb_laws.specs.Trees.{branches_beside, path_to};
ghost use Rattle.fb_links.specs.Table.{is_live};
ghost use Rattle.fb_trees.specs.Branches.{Grown, entries_of, entry_of};
ghost use Rattle.fb_trees.specs.Forests.{ArePlusTogether, AreRootedApart, IsInside, IsMinusNode, IsOutside, IsPlusNode, IsReplacedIn, IsTreeOf, MayReplaceIn, bare_trees, first_name, role_among, tree_at, trees_in};
ghost use Rattle.fb_trees.specs.Rooted.{IsBranchAt, attached_grown, bare};
ghost use Rattle.fb_trees.specs.TreeSteps.{IsCycle, path_up};
ghost use Rattle.fb_trees.specs.InternalForests.{IsOpenedIn, MayJoinIn, MayOpenIn, MayRebuild, MayReplaceAt, seen};
ghost use Rattle.fb_trees.specs.Replacements.{AreLinkedOn, joined_grown};

use crate::one_tree::OneTree;
use crate::places::{place_in, widen};
use crate::table::{Table, add_branch, dissolve, own, rebuild};
use crate::tree_view::TreeView;
use crate::{Branch, CycleStep, LinkId, Links, NoMemory, NodeId, Role, Roles};
use std::alloc::Global;
use std::marker::Model;

/// The number of a tree in its forest: the place of its root among those that the forest began with and those added since.
pub type TreeId = usize;

/// Several alternating trees at once (Edmonds 1965), none of which shares a node with another. Contracts see them by their
/// numbers; a tree that was dissolved is gone. A call that returns `NoMemory` leaves the forest as it was.
#[derive(Drop)]
pub struct Forest {
    trees: Vec<OneTree>,
    table: Table,
    /// How many of the trees aren't dissolved.
    left: usize,
}

impl Model for Forest {
    ghost use Rattle.std.specs.Prelude.{List, map, Option};
    ghost use Rattle.std.specs.Coded.{coded_list, coded_option};
    ghost use Rattle.fb_trees.specs.Branches.{Grown, grown_code};

    ghost Value = { List (Option Grown) };

    ghost coded = { coded_list (coded_option grown_code) };

    ghost use Rattle.fb_trees.specs.InternalForests.{IsWholeForest, grown_of};

    ghost view = { λ f. map grown_of f.trees.items };

    ghost invariant = { λ f. IsWholeForest (map grown_of f.trees.items) f.table.owners.items f.table.places.items f.left };
}

impl Forest {
    /// One tree for each root, the root alone, a plus node.
    pub fn start(alloc: Global, roots: &[NodeId]) -> Result<Forest, NoMemory>
        requires { AreDistinct roots.now }
        ensures { IfOk result (λ forest. forest ≡ bare_trees roots.now) }
    {
        let mut forest = Forest::empty(alloc);
        forest.restart(alloc, roots)?;
        Ok(forest)
    }

    /// A forest of no trees, for a later restart. Takes no memory.
    pub fn empty(alloc: Global) -> Forest
        ensures { result ≡ [] }
    {
        Forest {
            trees: Vec::new(alloc),
            table: Table {
                owners: Vec::new(alloc),
                places: Vec::new(alloc),
            },
            left: 0,
        }
    }

    /// One tree for each root, the root alone, in the room of this forest. Takes time for each tree of this forest, for the
    /// nodes of those that aren't dissolved, and for each root, but never for the room of the tables, which grow only for a
    /// name larger than each before. If memory runs out, the forest has the trees of some of the first roots.
    pub fn restart(&mut self, alloc: Global, roots: &[NodeId]) -> Result<(), NoMemory>
        requires { AreDistinct roots.now }
        ensures { OnOk result (self.new ≡ bare_trees roots.now) }
    {
        self.clear();
        for root in roots {
            self.add_tree(alloc, *root)?;
        }
        Ok(())
    }

    /// Takes all trees away, and their numbers too. The room for the tables and for the list of trees stays.
    fn clear(&mut self)
        ensures { self.new ≡ [] }
    {
        self.dissolve_all();
        self.trees.clear();
    }

    /// Dissolves each tree that isn't dissolved yet.
    fn dissolve_all(&mut self)
        ensures { (t : ℕ) → tree_at self.new t ≡ None }
    {
        for tree in 0..self.count() {
            if self.root(tree).is_some() {
                self.dissolve(tree);
            }
        }
    }

    /// Adds the tree of the root alone, a plus node, which is in no tree yet. Its number is the last.
    pub fn add_tree(&mut self, alloc: Global, root: NodeId) -> Result<(), NoMemory>
        requires { IsOutside self.old root }
        ensures ok { OnOk result (self.new ≡ self.old ++ Some (bare root) ∷ []) }
        ensures err { OnErr result (self.new ≡ self.old) }
    {
        let tree = self.trees.len();
        self.trees.reserve(1)?;
        widen(&mut self.table.owners, root)?;
        own(&mut self.table.owners, root, tree);
        self.trees.push_reserved(OneTree {
            root,
            branches: Vec::new(alloc),
            live: true,
        });
        self.left += 1;
        Ok(())
    }

    /// Does nothing. Its clause says what every forest keeps.
    pub fn keeps(&self)
        ensures { AreRootedApart self.now }
    {
        let _ = &self.table;
    }

    /// How many trees there are or were: the number of the tree that is added next.
    pub fn count(&self) -> usize
        ensures { result ≡ length self.now }
    {
        self.trees.len()
    }

    /// How many trees aren't dissolved. Constant time.
    pub fn left(&self) -> usize
        ensures { result ≡ length (trees_in self.now) }
    {
        self.left
    }

    /// The root of the tree of that number; `None` if it was dissolved.
    pub fn root(&self, tree: TreeId) -> Option<NodeId>
        requires { tree < length self.now }
        ensures { result ≡ option_map (λ g. g.root) (tree_at self.now tree) }
    {
        let one = &self.trees[tree];
        if one.live { Some(one.root) } else { None }
    }

    /// The branches of the tree of that number, the oldest one first. The tree's nodes are its root, a plus node, and those
    /// of its branches.
    pub fn branches(&self, tree: TreeId) -> &[Branch]
        requires { (g : Grown) × (tree_at self.now tree ≡ Some g) }
        ensures { (g : Grown) → tree_at self.now tree ≡ Some g → entries_of result.now ≡ g.branches }
    {
        let one = &self.trees[tree];
        &one.branches
    }

    /// The number of the tree that the node is in.
    pub fn tree_of(&self, node: NodeId) -> Option<TreeId>
        ensures tree { MatchOption result (IsOutside self.now node) (λ t. (g : Grown) × IsTreeOf self.now node t g) }
        ensures kept { AreRootedApart self.now }
    {
        place_in(&self.table.owners, node)
    }

    /// The role of the node; `Out` if it is in no tree. Constant time.
    pub fn role(&self, node: NodeId) -> Role
        ensures { result ≡ role_among self.now node }
    {
        match self.tree_of(node) {
            Some(tree) => self.view(tree).role(node),
            None => Role::Out,
        }
    }

    /// The branch of a minus node. Constant time.
    pub fn branch(&self, minus: NodeId) -> Branch
        requires { IsMinusNode self.now minus }
        ensures { (t : ℕ) (g : Grown) → IsTreeOf self.now minus t g → IsBranchAt g minus (entry_of result) }
    {
        self.view_of(minus).branch(minus)
    }

    /// The nodes from a node of a tree up, each with the link to its parent. The root is not listed.
    pub fn path_to_root(&self, alloc: Global, node: NodeId) -> Result<Vec<CycleStep>, NoMemory>
        requires { IsInside self.now node }
        ensures { IfOk result (λ path. (t : ℕ) (g : Grown) → IsTreeOf self.now node t g → path.items ≡ path_up g node) }
    {
        self.view_of(node).path_to_root(alloc, node)
    }

    /// The cycle that a link between the plus nodes a and b of one tree closes, from its base on, where the paths to the two
    /// part. Each step's link leads to the next step's node, that of the last one back to the base. The nodes are an odd
    /// number of at least three, each once.
    pub fn cycle_of(
        &self,
        alloc: Global,
        a: NodeId,
        b: NodeId,
        closing: LinkId,
        links: &Links,
    ) -> Result<Vec<CycleStep>, NoMemory>
        requires closing { is_live links.now closing ≡ true }
        requires together { ArePlusTogether self.now a b }
        requires apart { a ≢ b }
        ensures cycle { IfOk result (λ cycle. (t : ℕ) (g : Grown) → IsTreeOf self.now a t g → IsCycle g a b closing cycle.items) }
        ensures many { IfOk result (λ cycle. AreMany (map (λ s. s.node) cycle.items)) }
    {
        let _ = links;
        self.view_of(a).cycle_of(alloc, a, b, closing)
    }

    /// The branches from the root to the plus node, the one at the root first.
    pub fn branches_to(&self, alloc: Global, plus: NodeId) -> Result<Vec<Branch>, NoMemory>
        requires { IsPlusNode self.now plus }
        ensures { IfOk result (λ path. (t : ℕ) (g : Grown) → IsTreeOf self.now plus t g → map entry_of path.items ≡ path_to g.branches plus) }
    {
        self.view_of(plus).branches_to(alloc, plus)
    }

    /// The branches of the plus node's tree that are not on the way from the root to it, the newest one first. Takes time
    /// for each branch of that tree.
    pub fn branches_beside(&self, alloc: Global, plus: NodeId) -> Result<Vec<Branch>, NoMemory>
        requires { IsInside self.now plus }
        ensures { IfOk result (λ others. (t : ℕ) (g : Grown) → IsTreeOf self.now plus t g → map entry_of others.items ≡ branches_beside g.branches plus) }
    {
        self.view_of(plus).branches_beside(alloc, plus)
    }

    /// Takes the tree away: its nodes are in no tree from then on. Takes time for each of its branches.
    pub fn dissolve(&mut self, tree: TreeId)
        requires { (g : Grown) × (tree_at self.old tree ≡ Some g) }
        ensures { self.new ≡ set self.old tree None }
    {
        let one = &mut self.trees[tree];
        dissolve(&mut self.table, one);
        self.left -= 1;
    }

    /// Puts `minus` under the plus node by the link, and the node of `matched` under `minus` by the link of `matched`,
    /// which it is matched by. Neither is in a tree yet.
    pub fn attach(
        &mut self,
        _alloc: Global,
        plus: NodeId,
        link: LinkId,
        minus: NodeId,
        matched: CycleStep,
        links: &Links,
    ) -> Result<(), NoMemory>
        requires link { is_live links.now link ≡ true }
        requires matched_link { is_live links.now matched.link ≡ true }
        requires plus { IsPlusNode self.old plus }
        requires minus { IsOutside self.old minus }
        requires matched { IsOutside self.old matched.node }
        requires apart { minus ≢ matched.node }
        ensures ok { OnOk result ((t : ℕ) (g : Grown) → IsTreeOf self.old plus t g → self.new ≡ set self.old t (Some (attached_grown g (record { parent = plus; tree = link; minus = minus; matched = matched.link; plus = matched.node })))) }
        ensures err { OnErr result (self.new ≡ self.old) }
    {
        let _ = links;
        let Some(tree) = self.tree_of(plus) else {
            unreachable!()
        };
        let branch = Branch {
            parent: plus,
            tree: link,
            minus,
            matched: matched.link,
            plus: matched.node,
        };
        let one = &mut self.trees[tree];
        // The table and the list grow by the allocator that they were made with.
        add_branch(&mut self.table, one, tree, &branch)
    }

    /// Takes the nodes of `gone`, which are of one tree, out of it and puts those of `path` in their place, which are in no
    /// tree. For a blossom formed of a cycle, `gone` is the cycle's nodes and `path` is the blossom. For a minus blossom
    /// opened, `gone` is the blossom, and `path` leads over its children from the one at which the link of the tree ends to
    /// the one at which the matched link ends: each step's link leads to the next child, and the last step's is not read.
    ///
    /// Takes time for each branch of the tree.
    pub fn replace(
        &mut self,
        alloc: Global,
        gone: &[NodeId],
        path: &[CycleStep],
        links: &Links,
    ) -> Result<(), NoMemory>
        requires replace { MayReplaceIn self.old gone.now path.now }
        requires links { AreLinkedOn links.now path.now }
        ensures ok { OnOk result ((t : ℕ) (g : Grown) → IsTreeOf self.old (first_name gone.now) t g → IsReplacedIn self.old gone.now path.now t g self.new) }
        ensures err { OnErr result (self.new ≡ self.old) }
    {
        let _ = links;
        let [first, ..] = gone else { unreachable!() };
        let Some(tree) = self.tree_of(*first) else {
            unreachable!()
        };
        self.replace_in(alloc, tree, gone, path)
    }

    /// The same in the tree of that number.
    pub(crate) fn replace_in(
        &mut self,
        alloc: Global,
        tree: TreeId,
        gone: &[NodeId],
        path: &[CycleStep],
    ) -> Result<(), NoMemory>
        requires { MayReplaceAt self.old tree gone.now path.now }
        ensures ok { OnOk result ((g : Grown) → tree_at self.old tree ≡ Some g → IsReplacedIn self.old gone.now path.now tree g self.new) }
        ensures err { OnErr result (self.new ≡ self.old) }
    {
        match (gone, path) {
            ([blossom], _) => self.open(alloc, tree, *blossom, path),
            ([_, _, ..], [blossom]) => self.join(alloc, tree, gone, blossom.node),
            _ => unreachable!(),
        }
    }

    /// Puts the blossom in the place of the nodes, in the tree of that number.
    fn join(
        &mut self,
        alloc: Global,
        tree: TreeId,
        gone: &[NodeId],
        blossom: NodeId,
    ) -> Result<(), NoMemory>
        requires may { MayJoinIn self.old tree gone.now blossom }
        requires many { 2 ≤ length gone.now }
        ensures many { 2 ≤ length gone.now }
        ensures ok { OnOk result ((g : Grown) → tree_at self.old tree ≡ Some g → self.new ≡ set self.old tree (Some (joined_grown g gone.now blossom))) }
        ensures err { OnErr result (self.new ≡ self.old) }
    {
        let one = self.view(tree).joined(alloc, gone, blossom)?;
        self.rebuild(tree, one)
    }

    /// Puts the nodes of the path in the place of the minus node of the tree of that number.
    fn open(
        &mut self,
        alloc: Global,
        tree: TreeId,
        blossom: NodeId,
        path: &[CycleStep],
    ) -> Result<(), NoMemory>
        requires { MayOpenIn self.old tree blossom path.now }
        ensures ok { OnOk result ((g : Grown) → tree_at self.old tree ≡ Some g → IsOpenedIn self.old blossom path.now tree g self.new) }
        ensures err { OnErr result (self.new ≡ self.old) }
    {
        let one = self.view(tree).opened(alloc, blossom, path)?;
        self.rebuild(tree, one)
    }

    /// Puts this tree in the place of that one.
    fn rebuild(&mut self, tree: TreeId, one: OneTree) -> Result<(), NoMemory>
        requires live { one.live ≡ true }
        requires may { MayRebuild self.old tree one.root (entries_of one.branches.items) }
        ensures ok { OnOk result (self.new ≡ set self.old tree (Some (seen one))) }
        ensures err { OnErr result (self.new ≡ self.old) }
    {
        let old = &mut self.trees[tree];
        rebuild(&mut self.table, old, tree, one)
    }

    /// The tree of the node, with the table.
    fn view_of(&self, node: NodeId) -> TreeView<'_>
        requires { IsInside self.now node }
        ensures { (t : ℕ) (g : Grown) → IsTreeOf self.now node t g → result ≡ g }
    {
        let Some(tree) = self.tree_of(node) else {
            unreachable!()
        };
        self.view(tree)
    }

    /// The tree of that number, with the table.
    fn view(&self, tree: TreeId) -> TreeView<'_>
        requires { (g : Grown) × (tree_at self.now tree ≡ Some g) }
        ensures { tree_at self.now tree ≡ Some result }
    {
        let one = &self.trees[tree];
        TreeView {
            root: one.root,
            branches: &one.branches,
            places: &self.table.places,
        }
    }
}

impl Roles for Forest {
    ghost role_of = { λ forest node. role_among forest node };

    fn role(&self, node: NodeId) -> Role {
        self.role(node)
    }
}
