ghost use Rattle.std.specs.Prelude.{◌≡◌, ◌≢◌, ℕ, [], reverse, true, false, IfNone, IfOk, IfSome, OnErr, Some};
ghost use Rattle.std.specs.Ordering.{nat_cmp};
ghost use Rattle.std.specs.BTreeMap.{get};
ghost use Rattle.fb_links.specs.Lists.{is_in};
ghost use Rattle.fb_blossoms.specs.Links.{AllLinked, AreLinked};
ghost use Rattle.fb_blossoms.specs.Paths.{IsEvenPath};
ghost use Rattle.fb_blossoms.specs.Nodes.{Adds, AreOuter, IsChildHolding, IsNested, IsOddCycle, IsOuter, IsOuterOf, IsParent, TakesOff, blossom, cycle_at, defects_at, is_live, is_on, leaf, node_at};
ghost use Rattle.fb_blossoms.specs.Merged.{AreLeavesApart, IsMerged};
ghost use Rattle.fb_blossoms.specs.InternalForest.{IsPlaceOf};
ghost use Rattle.fb_blossoms.specs.InternalWays.{LeadsDown};

use crate::entry::Entry;
use crate::forest::{child_over, cycle_of, parent_of, place_of, put_under, top_of, way_down};
use crate::joining::join_nodes;
use crate::leaves::{Leaves, enter_children, enter_taken, leaf_of};
use crate::legs::{Nest, even_path};
use crate::{CycleStep, LinkId, Links, NoMemory, NodeId};
use slab::Slab;
use std::alloc::Global;
use std::marker::Model;

/// A store of nodes. A leaf is one defect; a blossom is an odd cycle of nodes, its children, with the links between
/// neighbours. A node that is no child is outer. Contracts see the store as the table of its nodes by number. A call
/// that returns `NoMemory` leaves the store unchanged.
#[derive(Drop)]
pub struct Blossoms {
    nodes: Slab<Entry>,
    /// The leaf of each defect in a blossom, and of some others: it stays when its blossom is opened.
    leaves: Leaves,
    /// The number of nodes made so far.
    made: u64,
}

impl Model for Blossoms {
    ghost use Rattle.std.specs.Prelude.{List, Option};
    ghost use Rattle.std.specs.Ordering.{nat_cmp};
    ghost use Rattle.std.specs.BTreeMap.{get};
    ghost use Rattle.fb_blossoms.specs.Nodes.{Node, table_code};
    ghost use Rattle.fb_blossoms.specs.InternalForest.{IsKept, nodes_of};

    ghost Value = { List (Option Node) };

    ghost coded = { table_code };

    ghost view = { λ b. nodes_of b.nodes.slots };

    ghost invariant = { λ b. IsKept b.nodes.slots (get nat_cmp b.leaves) b.made };
}

impl Blossoms {
    /// The store without nodes.
    pub fn new(alloc: Global) -> Result<Blossoms, NoMemory>
        ensures { IfOk result (λ b. b ≡ []) }
    {
        Ok(Blossoms {
            nodes: Slab::new(alloc),
            leaves: Leaves::new(alloc),
            made: 0,
        })
    }

    /// The store without nodes, in the room of this one. Its time is that of the most nodes that this one held at once. Takes
    /// no memory.
    pub fn into_empty(self) -> Blossoms
        ensures { result ≡ [] }
    {
        let Blossoms {
            nodes,
            leaves,
            made: _,
        } = self;
        emptied(nodes, leaves)
    }

    /// Does nothing. Its clause states what every store keeps.
    pub fn keeps(&self)
        ensures { IsNested self.now }
    {
        let _ = &self.made;
    }

    /// Makes the defect an outer node.
    pub fn leaf(&mut self, alloc: Global, defect: u32) -> Result<NodeId, NoMemory>
        requires { (x : ℕ) → node_at self.old x ≢ Some (leaf defect) }
        ensures ok { IfOk result (λ node. Adds self.old self.new node (leaf defect)) }
        ensures err { OnErr result (self.new ≡ self.old) }
    {
        let Some(made) = self.made.checked_add(1) else {
            return Err(NoMemory);
        };
        self.nodes.reserve(1)?;
        let node = self.nodes.vacant_key() as NodeId;
        self.nodes.insert_reserved(Entry::leaf(self.made, defect));
        self.made = made;
        Ok(node)
    }

    /// Makes outer nodes the children of a new outer node, a blossom. Each step's link leads from its node to the next
    /// step's, from the last to the first. The links stay as they are.
    pub fn form(
        &mut self,
        alloc: Global,
        cycle: Vec<CycleStep>,
        links: &Links,
    ) -> Result<NodeId, NoMemory>
        requires cycle { IsOddCycle self.old cycle.items }
        requires linked { AreLinked links.now self.old cycle.items }
        requires outer { AreOuter self.old cycle.items }
        ensures ok { IfOk result (λ node. Adds self.old self.new node (blossom self.old cycle.items)) }
        ensures err { OnErr result (self.new ≡ self.old) }
    {
        let Some(made) = self.made.checked_add(1) else {
            return Err(NoMemory);
        };
        enter_children(&self.nodes, &mut self.leaves, &cycle)?;
        self.nodes.reserve(1)?;
        let node = self.nodes.vacant_key() as NodeId;
        put_under(&mut self.nodes, &cycle, Some(node));
        let _ = links;
        self.nodes.insert_reserved(Entry::blossom(self.made, cycle));
        self.made = made;
        Ok(node)
    }

    /// Removes an outer blossom and returns its cycle, whose nodes are outer again. The blossom's number is free.
    pub fn open_up(&mut self, node: NodeId) -> Vec<CycleStep>
        requires blossom { cycle_at self.old node ≢ [] }
        requires outer { IsOuter self.old node }
        ensures cycle { result.items ≡ cycle_at self.old node }
        ensures rest { TakesOff self.old self.new node }
    {
        let cycle = self.nodes.remove(node as usize).into_cycle();
        put_under(&mut self.nodes, &cycle, None);
        cycle
    }

    /// The two stores as one, and the list of the right one's nodes, each beside its new number. The left one's numbers
    /// stay. The right one's links get the new numbers that the list has beside them. Its time is that of the right
    /// one's nodes.
    pub fn merged(
        alloc: Global,
        left: Blossoms,
        right: Blossoms,
        links: &[(LinkId, LinkId)],
    ) -> Result<(Blossoms, Vec<(NodeId, NodeId)>), NoMemory>
        requires { AreLeavesApart left right }
        ensures { IfOk result (λ both. IsMerged left right both.0 links.now both.1.items) }
    {
        let (both, pairs, _spare) = Blossoms::merged_with_spare(alloc, left, right, links)?;
        Ok((both, pairs))
    }

    /// The same, and the right store without nodes, in its room.
    pub fn merged_with_spare(
        alloc: Global,
        left: Blossoms,
        right: Blossoms,
        links: &[(LinkId, LinkId)],
    ) -> Result<(Blossoms, Vec<(NodeId, NodeId)>, Blossoms), NoMemory>
        requires { AreLeavesApart left right }
        ensures merged { IfOk result (λ both. IsMerged left right both.0 links.now both.1.items) }
        ensures spare { IfOk result (λ both. both.2 ≡ []) }
    {
        let Blossoms {
            mut nodes,
            mut leaves,
            made: before,
        } = left;
        let Blossoms {
            nodes: mut others,
            leaves: other_leaves,
            made: more,
        } = right;
        let Some(made) = before.checked_add(more) else {
            return Err(NoMemory);
        };
        let pairs = join_nodes(alloc, &mut nodes, &mut others, before, links)?;
        enter_taken(&nodes, &mut leaves, &pairs)?;
        let both = Blossoms {
            nodes,
            leaves,
            made,
        };
        let spare = emptied(others, other_leaves);
        Ok((both, pairs, spare))
    }

    /// The outer node that the node is, or lies in at any depth. Its time is that depth.
    pub fn outer_of(&self, node: NodeId) -> NodeId
        requires { is_live self.now node ≡ true }
        ensures { IsOuterOf self.now node result }
    {
        top_of(&self.nodes, self.made, node)
    }

    /// The child of the blossom that holds the defect.
    pub fn child_holding(&self, node: NodeId, defect: u32) -> NodeId
        requires blossom { cycle_at self.now node ≢ [] }
        requires holds { is_in (defects_at self.now node) defect ≡ true }
        ensures { IsChildHolding self.now node defect result }
    {
        let Some(leaf) = leaf_of(&self.leaves, defect) else {
            unreachable!()
        };
        child_over(&self.nodes, self.made, node, leaf)
    }

    /// The leaf of the defect; `None` only if no child of a blossom holds the defect.
    pub fn leaf_of(&self, defect: u32) -> Option<NodeId>
        ensures leaf { IfSome result (λ x. node_at self.now x ≡ Some (leaf defect)) }
        ensures none { IfNone result ((p x : ℕ) → is_on (cycle_at self.now p) x ≡ true
            → is_in (defects_at self.now x) defect ≡ false) }
    {
        leaf_of(&self.leaves, defect)
    }

    /// The blossom in whose cycle the node is, if it is not outer.
    pub fn parent(&self, node: NodeId) -> Option<NodeId>
        ensures { IsParent self.now node result }
    {
        parent_of(&self.nodes, node)
    }

    /// The steps of the blossom's cycle; none for a leaf.
    pub fn cycle(&self, node: NodeId) -> &[CycleStep]
        ensures { result.now ≡ cycle_at self.now node }
    {
        cycle_of(&self.nodes, node)
    }

    /// The links of the even path inside the node from one of its defects to another: by an even number of steps round
    /// the node's cycle, and so on inside each child that is passed. Each second link matches each defect of the path
    /// but its last one. Its time is that of the path's links, and of the depth of their ends below the cycles that they
    /// are in.
    pub fn path_between(
        &self,
        alloc: Global,
        node: NodeId,
        a: u32,
        b: u32,
        links: &Links,
    ) -> Result<Vec<LinkId>, NoMemory>
        requires first { is_in (defects_at self.now node) a ≡ true }
        requires second { is_in (defects_at self.now node) b ≡ true }
        requires linked { AllLinked links.now self.now }
        ensures { IfOk result (λ path. IsEvenPath links.now self.now node a b path.items) }
    {
        let nest = Nest {
            alloc,
            blossoms: self,
            links,
        };
        even_path(&nest, node, a, b)
    }

    /// The place of the node in the cycle that it is in.
    pub(crate) fn place(&self, node: NodeId) -> usize
        ensures { (p : ℕ) → is_on (cycle_at self.now p) node ≡ true → IsPlaceOf (cycle_at self.now p) node result }
    {
        place_of(&self.nodes, node)
    }

    /// The nodes below the node on the way down to the leaf of the defect, the leaf first.
    pub(crate) fn way_to(
        &self,
        alloc: Global,
        node: NodeId,
        defect: u32,
    ) -> Result<Vec<NodeId>, NoMemory>
        requires { is_in (defects_at self.now node) defect ≡ true }
        ensures { IfOk result (λ way. LeadsDown self.now node defect (reverse way.items)) }
    {
        // A leaf that no blossom holds is the node itself.
        let Some(leaf) = leaf_of(&self.leaves, defect) else {
            return Ok(Vec::new(alloc));
        };
        way_down(alloc, &self.nodes, self.made, node, leaf)
    }
}

/// The store without nodes, in the room of these pieces.
fn emptied(mut nodes: Slab<Entry>, mut leaves: Leaves) -> Blossoms
    ensures { result ≡ [] }
{
    nodes.clear();
    leaves.clear();
    Blossoms {
        nodes,
        leaves,
        made: 0,
    }
}
