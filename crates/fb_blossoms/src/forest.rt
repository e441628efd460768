ghost use Rattle.std.specs.Prelude.{◌≡◌, ◌==◌, ℕ, if◌then◌else◌, option_map, reverse, true, suc, [], ◌∷◌, ◌++◌, IfOk, OnOk};
ghost use Rattle.slab.specs.Slab.{HasRoomFor, get};
ghost use Rattle.fb_blossoms.specs.InternalForest.{Climbs, IsForest, IsTopOf, IsChildOver, LeadsDownTo, is_kept, parent_at, place_at, reparented_item, steps_at, with_parent};

use crate::entry::Entry;
use crate::{CycleStep, NoMemory, NodeId};
use slab::Slab;
use std::alloc::Global;

/// The blossom in whose cycle the node is.
pub fn parent_of(nodes: &Slab<Entry>, node: NodeId) -> Option<NodeId>
    ensures { result ≡ parent_at nodes.now.slots node }
{
    nodes.get(node as usize)?.parent()
}

/// The place of the node in the cycle of its parent.
pub fn place_of(nodes: &Slab<Entry>, node: NodeId) -> usize
    ensures { result ≡ place_at nodes.now.slots node }
{
    match nodes.get(node as usize) {
        Some(entry) => entry.place(),
        None => 0,
    }
}

/// Puts the nodes of the cycle under the parent; with none they are outer.
pub fn put_under(nodes: &mut Slab<Entry>, cycle: &[CycleStep], parent: Option<NodeId>)
    ensures slots { (x : ℕ) → get nodes.new x ≡ reparented_item cycle.now parent x (get nodes.old x) }
    ensures room { HasRoomFor nodes.old 1 → HasRoomFor nodes.new 1 }
    ensures key { nodes.new.vacant_key ≡ nodes.old.vacant_key }
{
    for (place, step) in cycle.iter().enumerate() {
        put_one_under(nodes, step.node, parent, place);
    }
}

fn put_one_under(nodes: &mut Slab<Entry>, node: NodeId, parent: Option<NodeId>, place: usize)
    ensures slots { (x : ℕ) → get nodes.new x ≡ (if node == x then option_map (with_parent parent place) (get nodes.old x) else get nodes.old x) }
    ensures room { HasRoomFor nodes.old 1 → HasRoomFor nodes.new 1 }
    ensures key { nodes.new.vacant_key ≡ nodes.old.vacant_key }
{
    if let Some(entry) = nodes.get_mut(node as usize) {
        entry.set_parent(parent, place);
    }
}

/// The outer node round the node.
pub fn top_of(nodes: &Slab<Entry>, made: u64, node: NodeId) -> NodeId
    requires forest { IsForest nodes.now.slots made }
    requires live { is_kept nodes.now.slots node ≡ true }
    ensures { IsTopOf nodes.now.slots node result }
{
    let mut top = node;
    while let Some(parent) = parent_of(nodes, top) {
        top = parent;
    }
    top
}

/// The child of the node on the way up to it from a leaf below it.
pub fn child_over(nodes: &Slab<Entry>, made: u64, node: NodeId, leaf: NodeId) -> NodeId
    requires forest { IsForest nodes.now.slots made }
    requires below { (k : ℕ) × Climbs nodes.now.slots (suc k) leaf node }
    ensures { IsChildOver nodes.now.slots node leaf result }
{
    let mut child = leaf;
    while let Some(parent) = parent_of(nodes, child) {
        if parent == node {
            return child;
        }
        child = parent;
    }
    unreachable!()
}

/// The nodes below the node on the way down to a leaf, the leaf first.
pub fn way_down(
    alloc: Global,
    nodes: &Slab<Entry>,
    made: u64,
    node: NodeId,
    leaf: NodeId,
) -> Result<Vec<NodeId>, NoMemory>
    requires forest { IsForest nodes.now.slots made }
    requires below { (k : ℕ) × Climbs nodes.now.slots k leaf node }
    ensures { IfOk result (λ way. LeadsDownTo nodes.now.slots node leaf (reverse way.items)) }
{
    let mut way = Vec::new(alloc);
    let mut at = leaf;
    while at != node {
        let Some(parent) = parent_of(nodes, at) else {
            unreachable!()
        };
        push_node(&mut way, at)?;
        at = parent;
    }
    Ok(way)
}

fn push_node(way: &mut Vec<NodeId>, node: NodeId) -> Result<(), NoMemory>
    ensures { OnOk result (way.new.items ≡ way.old.items ++ node ∷ []) }
{
    way.push(node)?;
    Ok(())
}

/// The steps of the node's cycle; none for a leaf.
pub fn cycle_of(nodes: &Slab<Entry>, node: NodeId) -> &[CycleStep]
    ensures { result.now ≡ steps_at nodes.now.slots node }
{
    match nodes.get(node as usize) {
        Some(entry) => entry.cycle(),
        None => &[],
    }
}
