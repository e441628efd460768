//! The index by which the leaf of a defect is found. It has the leaves in blossoms.

ghost use Rattle.fb_links.specs.Lists.{is_in};
ghost use Rattle.std.specs.Prelude.{◌≡◌, ℕ, Some, OnErr, OnOk, if◌then◌else◌};
ghost use Rattle.std.specs.Ordering.{nat_cmp};
ghost use Rattle.std.specs.BTreeMap.{get as found};
ghost use Rattle.slab.specs.Slab.{get};
ghost use Rattle.fb_blossoms.specs.Nodes.{is_on};
ghost use Rattle.fb_blossoms.specs.InternalForest.{AreOwnApart, own_in};
ghost use Rattle.fb_blossoms.specs.InternalLeaves.{HasLeaves, IsGrown, is_taken_child};

use crate::entry::Entry;
use crate::forest::parent_of;
use crate::{CycleStep, NoMemory, NodeId};
use slab::Slab;
use std::collections::BTreeMap;

/// The leaves by their defects.
pub type Leaves = BTreeMap<u32, NodeId>;

/// The leaf that the index has for the defect.
pub fn leaf_of(leaves: &Leaves, defect: u32) -> Option<NodeId>
    ensures { result ≡ found nat_cmp leaves.now defect }
{
    leaves.get(&defect).copied()
}

/// Enters the node if it is a leaf.
fn enter_leaf(nodes: &Slab<Entry>, leaves: &mut Leaves, node: NodeId) -> Result<(), NoMemory>
    ensures ok { OnOk result ((d : ℕ) → found nat_cmp leaves.new d
        ≡ (if is_in (own_in (get nodes.now node)) d then Some node else found nat_cmp leaves.old d)) }
    ensures err { OnErr result ((d : ℕ) → found nat_cmp leaves.new d ≡ found nat_cmp leaves.old d) }
{
    let Some(entry) = nodes.get(node as usize) else {
        return Ok(());
    };
    let Some(defect) = entry.own() else {
        return Ok(());
    };
    leaves.insert(defect, node)?;
    Ok(())
}

/// Enters the leaves among the nodes of the cycle.
pub fn enter_children(
    nodes: &Slab<Entry>,
    leaves: &mut Leaves,
    cycle: &[CycleStep],
) -> Result<(), NoMemory>
    requires { AreOwnApart nodes.now.slots }
    ensures grown { IsGrown nodes.now.slots (found nat_cmp leaves.old) (found nat_cmp leaves.new) }
    ensures ok { OnOk result (HasLeaves nodes.now.slots (found nat_cmp leaves.new) (is_on cycle.now)) }
{
    for step in cycle {
        enter_leaf(nodes, leaves, step.node)?;
    }
    Ok(())
}

/// Enters the leaves in blossoms among the nodes that were taken.
pub fn enter_taken(
    nodes: &Slab<Entry>,
    leaves: &mut Leaves,
    pairs: &[(NodeId, NodeId)],
) -> Result<(), NoMemory>
    requires { AreOwnApart nodes.now.slots }
    ensures grown { IsGrown nodes.now.slots (found nat_cmp leaves.old) (found nat_cmp leaves.new) }
    ensures ok { OnOk result (HasLeaves nodes.now.slots (found nat_cmp leaves.new)
        (is_taken_child nodes.now.slots pairs.now)) }
{
    for (_, node) in pairs {
        if parent_of(nodes, *node).is_some() {
            enter_leaf(nodes, leaves, *node)?;
        }
    }
    Ok(())
}
