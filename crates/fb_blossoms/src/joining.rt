//! How the nodes of one store are put into another.

ghost use Rattle.fb_links.specs.Names.{name_by};
ghost use Rattle.std.specs.Prelude.{◌≡◌, ◌≢◌, ◌==◌, ◌+◌, ◌<◌, ◌≤◌, ◌^◌, ◌++◌, ◌∷◌, [], ℕ, IfOk, OnOk, if◌then◌else◌, option_map};
ghost use Rattle.slab.specs.Slab.{get};
ghost use Rattle.fb_blossoms.specs.InternalForest.{made_in};
ghost use Rattle.fb_blossoms.specs.Merged.{new_count};
ghost use Rattle.fb_blossoms.specs.InternalMerged.{AreAllTaken, AreJoined, IsStepOver, renamed_among, renamed_item};

use crate::entry::Entry;
use crate::{LinkId, NoMemory, NodeId};
use fb_links::names::{Names, names_of};
use slab::Slab;
use std::alloc::Global;

/// The nodes of a store, each beside its new number.
pub type Pairs = Vec<(NodeId, NodeId)>;

fn push_pair(names: &mut Pairs, old: NodeId, new: NodeId) -> Result<(), NoMemory>
    ensures { OnOk result (names.new.items ≡ names.old.items ++ (old, new) ∷ []) }
{
    names.push((old, new))?;
    Ok(())
}

/// Takes the node of this number, if there is one, into a free slot.
fn take_one(
    nodes: &mut Slab<Entry>,
    right: &mut Slab<Entry>,
    key: usize,
    more: u64,
    names: &mut Pairs,
) -> Result<(), NoMemory>
    requires { made_in (get right.old key) + more < 2 ^ 64 }
    ensures rest { (x : ℕ) → x ≢ key → get right.new x ≡ get right.old x }
    ensures step { OnOk result (IsStepOver nodes.old nodes.new names.old.items names.new.items key more (get right.old key)) }
{
    let Some(entry) = right.try_remove(key) else {
        return Ok(());
    };
    nodes.reserve(1)?;
    let node = nodes.insert_reserved(entry.made_later(more)) as NodeId;
    push_pair(names, key as NodeId, node)
}

/// Takes all nodes into free slots, as if `more` others had been made before each. They keep the numbers of their
/// parents, nodes and links. Looks at no slot after the last node's, so room that isn't used costs nothing.
pub fn take_all(
    alloc: Global,
    nodes: &mut Slab<Entry>,
    right: &mut Slab<Entry>,
    more: u64,
) -> Result<Pairs, NoMemory>
    requires { (a : ℕ) → made_in (get right.old a) + more < 2 ^ 64 }
    ensures { IfOk result (λ names. AreAllTaken nodes.old right.old nodes.new more names.items) }
{
    let mut names = Vec::new(alloc);
    for key in 0..right.capacity() {
        if right.is_empty() {
            break;
        }
        take_one(nodes, right, key, more, &mut names)?;
    }
    Ok(names)
}

fn rename_one(
    alloc: Global,
    nodes: &mut Slab<Entry>,
    node: NodeId,
    names: &Names,
    links: &Names,
) -> Result<(), NoMemory>
    ensures { OnOk result ((x : ℕ) → get nodes.new x ≡ (if node == x then option_map (renamed_item (name_by names.now) (name_by links.now)) (get nodes.old x) else get nodes.old x)) }
{
    if let Some(entry) = nodes.get_mut(node as usize) {
        entry.rename(alloc, names, links)?;
    }
    Ok(())
}

/// Gives the nodes that were taken their new numbers of parents, nodes and links.
pub fn rename_all(
    alloc: Global,
    nodes: &mut Slab<Entry>,
    pairs: &[(NodeId, NodeId)],
    names: &Names,
    links: &Names,
) -> Result<(), NoMemory>
    requires { (b : ℕ) → new_count pairs.now b ≤ 1 }
    ensures { OnOk result ((x : ℕ) → get nodes.new x ≡ renamed_among pairs.now (name_by names.now) (name_by links.now) x (get nodes.old x)) }
{
    for k in 0..pairs.len() {
        rename_one(alloc, nodes, pairs[k].1, names, links)?;
    }
    Ok(())
}

/// Puts the nodes of the right store into free slots, as if `more` others had been made before each, under new numbers.
/// The links of their cycles get the new numbers of the list.
pub fn join_nodes(
    alloc: Global,
    nodes: &mut Slab<Entry>,
    right: &mut Slab<Entry>,
    more: u64,
    links: &[(LinkId, LinkId)],
) -> Result<Pairs, NoMemory>
    requires { (a : ℕ) → made_in (get right.old a) + more < 2 ^ 64 }
    ensures { IfOk result (λ names. AreJoined nodes.old.slots right.old.slots nodes.new.slots more links.now names.items) }
{
    let pairs = take_all(alloc, nodes, right, more)?;
    let names = names_of(alloc, &pairs)?;
    let link_names = names_of(alloc, links)?;
    rename_all(alloc, nodes, &pairs, &names, &link_names)?;
    Ok(pairs)
}
