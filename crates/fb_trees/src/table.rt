ghost use Rattle.std.specs.Prelude.{◌≡◌, ◌==◌, ◌<◌, ◌++◌, ◌∷◌, ◌||◌, [], ℕ, false, None, Some, OnErr, OnOk, length, if◌then◌else◌};
ghost use Rattle.fb_regions.specs.InternalPlaces.{place_in};
ghost use Rattle.fb_trees.specs.Branches.{entries_of};
ghost use Rattle.fb_trees.specs.InternalForests.{HasRoom, IsRebuilt};
ghost use Rattle.fb_trees.specs.InternalPlaces.{has_branch, place_of, place_or};

use crate::one_tree::OneTree;
use crate::places::{
    Places, enter, enter_all, enter_owner, make_room, make_room_behind, make_room_for_all, remove,
    take_out_all, widen,
};
use crate::{Branch, NoMemory, NodeId};

/// By the names of nodes, the number of the tree that each is in, and the place of its branch there.
#[derive(Drop)]
pub struct Table {
    pub(crate) owners: Places,
    pub(crate) places: Places,
}

/// Makes room for the root and both nodes of each branch.
pub fn make_room_in(table: &mut Table, root: NodeId, branches: &[Branch]) -> Result<(), NoMemory>
    ensures owners { (name : ℕ) → place_in table.new.owners.items name ≡ place_in table.old.owners.items name }
    ensures places { (name : ℕ) → place_in table.new.places.items name ≡ place_in table.old.places.items name }
    ensures room { OnOk result (HasRoom table.new.owners.items table.new.places.items root branches.now) }
{
    make_room_for_all(&mut table.places, branches)?;
    make_room_for_all(&mut table.owners, branches)?;
    widen(&mut table.owners, root)
}

/// Takes the entries of the root and of the nodes of each branch out.
pub fn take_out(table: &mut Table, root: NodeId, branches: &[Branch])
    ensures owners_count { length table.new.owners.items ≡ length table.old.owners.items }
    ensures places_count { length table.new.places.items ≡ length table.old.places.items }
    ensures owners { (name : ℕ) → place_in table.new.owners.items name ≡ (if has_branch (entries_of branches.now) name then None else (if root == name then None else place_in table.old.owners.items name)) }
    ensures places { (name : ℕ) → place_in table.new.places.items name ≡ (if has_branch (entries_of branches.now) name then None else place_in table.old.places.items name) }
{
    remove(&mut table.owners, root);
    take_out_all(&mut table.owners, branches);
    take_out_all(&mut table.places, branches);
}

/// Enters the root and the nodes of each branch, the oldest one first, for the tree of that number.
pub fn enter_tree(table: &mut Table, tree: usize, root: NodeId, branches: &[Branch])
    requires { HasRoom table.old.owners.items table.old.places.items root branches.now }
    ensures owners { (name : ℕ) → place_in table.new.owners.items name ≡ (if root == name then Some tree else (if has_branch (entries_of branches.now) name then Some tree else place_in table.old.owners.items name)) }
    ensures places { (name : ℕ) → place_in table.new.places.items name ≡ place_or (place_of (entries_of branches.now) name) (place_in table.old.places.items name) }
{
    enter_owner(&mut table.owners, branches, tree);
    enter_all(&mut table.places, branches);
    own(&mut table.owners, root, tree);
}

/// Enters the tree of that number for the node.
pub fn own(owners: &mut Places, node: NodeId, tree: usize)
    requires { node < length owners.old.items }
    ensures count { length owners.new.items ≡ length owners.old.items }
    ensures entries { (name : ℕ) → place_in owners.new.items name ≡ (if node == name then Some tree else place_in owners.old.items name) }
{
    owners[node as usize] = Some(tree);
}

/// Adds the branch to the tree, and enters its nodes.
pub fn add_branch(
    table: &mut Table,
    one: &mut OneTree,
    tree: usize,
    branch: &Branch,
) -> Result<(), NoMemory>
    ensures root { one.new.root ≡ one.old.root }
    ensures live { one.new.live ≡ one.old.live }
    ensures ok { OnOk result (one.new.branches.items ≡ one.old.branches.items ++ branch.now ∷ []) }
    ensures err { OnErr result (one.new.branches.items ≡ one.old.branches.items) }
    ensures owners { OnOk result ((name : ℕ) → place_in table.new.owners.items name ≡ (if (branch.now.minus == name) || (branch.now.plus == name) then Some tree else place_in table.old.owners.items name)) }
    ensures places { OnOk result ((name : ℕ) → place_in table.new.places.items name ≡ (if (branch.now.minus == name) || (branch.now.plus == name) then Some (length one.old.branches.items) else place_in table.old.places.items name)) }
    ensures same_owners { OnErr result ((name : ℕ) → place_in table.new.owners.items name ≡ place_in table.old.owners.items name) }
    ensures same_places { OnErr result ((name : ℕ) → place_in table.new.places.items name ≡ place_in table.old.places.items name) }
{
    make_room_behind(&mut one.branches, &mut table.places, branch)?;
    make_room(&mut table.owners, branch)?;
    enter(&mut table.places, branch, one.branches.len());
    enter(&mut table.owners, branch, tree);
    one.branches.push_reserved(*branch);
    Ok(())
}

/// Takes the tree's entries out, and marks it as gone.
pub fn dissolve(table: &mut Table, one: &mut OneTree)
    ensures live { one.new.live ≡ false }
    ensures owners { (name : ℕ) → place_in table.new.owners.items name ≡ (if has_branch (entries_of one.old.branches.items) name then None else (if one.old.root == name then None else place_in table.old.owners.items name)) }
    ensures places { (name : ℕ) → place_in table.new.places.items name ≡ (if has_branch (entries_of one.old.branches.items) name then None else place_in table.old.places.items name) }
{
    take_out(table, one.root, &one.branches);
    one.branches.clear();
    one.live = false;
}

/// Takes the tree's entries out, enters those of the new one, and puts it in the place of the tree.
pub fn rebuild(
    table: &mut Table,
    old: &mut OneTree,
    tree: usize,
    new: OneTree,
) -> Result<(), NoMemory>
    ensures ok { OnOk result (old.new ≡ new) }
    ensures err { OnErr result (old.new ≡ old.old) }
    ensures table { OnOk result (IsRebuilt table.old.owners.items table.old.places.items old.old.root (entries_of old.old.branches.items) tree new.root (entries_of new.branches.items) table.new.owners.items table.new.places.items) }
    ensures same_owners { OnErr result ((name : ℕ) → place_in table.new.owners.items name ≡ place_in table.old.owners.items name) }
    ensures same_places { OnErr result ((name : ℕ) → place_in table.new.places.items name ≡ place_in table.old.places.items name) }
{
    make_room_in(table, new.root, &new.branches)?;
    take_out(table, old.root, &old.branches);
    enter_tree(table, tree, new.root, &new.branches);
    *old = new;
    Ok(())
}
