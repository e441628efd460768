ghost use Rattle.std.specs.Prelude.{◌≡◌, ◌≤◌, ◌<◌, ◌==◌, ◌||◌, [], ℕ, None, Some, All, OnOk, length, vec_capacity, if◌then◌else◌};
ghost use Rattle.fb_regions.specs.InternalPlaces.{place_in};
ghost use Rattle.fb_trees.specs.Branches.{entries_of};
ghost use Rattle.fb_trees.specs.InternalPlaces.{IsWithin, has_branch, place_of, place_or};

use crate::{Branch, NoMemory, NodeId};

/// The place of each node's branch, by the node's name.
pub type Places = Vec<Option<usize>>;

/// The place of the node's branch.
pub fn place_in(places: &[Option<usize>], node: NodeId) -> Option<usize>
    ensures { result ≡ place_in places.now node }
{
    match places.get(node as usize) {
        Some(place) => *place,
        None => None,
    }
}

/// Makes room for both nodes of each branch.
pub fn make_room_for_all(places: &mut Places, branches: &[Branch]) -> Result<(), NoMemory>
    ensures same { (name : ℕ) → place_in places.new.items name ≡ place_in places.old.items name }
    ensures room { OnOk result (All (IsWithin (length places.new.items)) branches.now) }
{
    for branch in branches {
        make_room(places, branch)?;
    }
    Ok(())
}

/// Makes room for the branch behind the others, and for both of its nodes.
pub fn make_room_behind(
    branches: &mut Vec<Branch>,
    places: &mut Places,
    branch: &Branch,
) -> Result<(), NoMemory>
    ensures branches { branches.new.items ≡ branches.old.items }
    ensures same { (name : ℕ) → place_in places.new.items name ≡ place_in places.old.items name }
    ensures list { OnOk result (length branches.new.items < vec_capacity branches.new) }
    ensures room { OnOk result (IsWithin (length places.new.items) branch.now) }
{
    branches.reserve(1)?;
    make_room(places, branch)
}

/// Makes room for both nodes of the branch.
pub fn make_room(places: &mut Places, branch: &Branch) -> Result<(), NoMemory>
    ensures same { (name : ℕ) → place_in places.new.items name ≡ place_in places.old.items name }
    ensures longer { length places.old.items ≤ length places.new.items }
    ensures room { OnOk result (IsWithin (length places.new.items) branch.now) }
{
    widen(places, branch.minus)?;
    widen(places, branch.plus)
}

/// Makes room for the node.
pub fn widen(places: &mut Places, node: NodeId) -> Result<(), NoMemory>
    ensures same { (name : ℕ) → place_in places.new.items name ≡ place_in places.old.items name }
    ensures longer { length places.old.items ≤ length places.new.items }
    ensures room { OnOk result (node < length places.new.items) }
{
    let Some(count) = (node as usize).checked_add(1) else {
        return Err(NoMemory);
    };
    if places.len() < count {
        places.resize(count, None)?;
    }
    Ok(())
}

/// Enters the nodes of the branches, the oldest one first. Other entries stay.
pub fn enter_all(places: &mut Places, branches: &[Branch])
    requires { All (IsWithin (length places.old.items)) branches.now }
    ensures { (name : ℕ) → place_in places.new.items name ≡ place_or (place_of (entries_of branches.now) name) (place_in places.old.items name) }
{
    for (at, branch) in branches.iter().enumerate() {
        enter(places, branch, at);
    }
}

/// Enters both nodes of the branch at the place.
pub fn enter(places: &mut Places, branch: &Branch, at: usize)
    requires { IsWithin (length places.old.items) branch.now }
    ensures count { length places.new.items ≡ length places.old.items }
    ensures places { (name : ℕ) → place_in places.new.items name ≡ (if (branch.now.minus == name) || (branch.now.plus == name) then Some at else place_in places.old.items name) }
{
    places[branch.minus as usize] = Some(at);
    places[branch.plus as usize] = Some(at);
}

/// Enters the tree of this number for both nodes of each branch. Other entries stay.
pub fn enter_owner(owners: &mut Places, branches: &[Branch], tree: usize)
    requires { All (IsWithin (length owners.old.items)) branches.now }
    ensures count { length owners.new.items ≡ length owners.old.items }
    ensures entries { (name : ℕ) → place_in owners.new.items name ≡ (if has_branch (entries_of branches.now) name then Some tree else place_in owners.old.items name) }
{
    for branch in branches {
        enter(owners, branch, tree);
    }
}

/// Takes the entries of all branches out. Takes time for each of them, however large a name is.
pub fn take_out_all(places: &mut Places, branches: &[Branch])
    ensures count { length places.new.items ≡ length places.old.items }
    ensures entries { (name : ℕ) → place_in places.new.items name ≡ (if has_branch (entries_of branches.now) name then None else place_in places.old.items name) }
{
    for branch in branches {
        remove(places, branch.minus);
        remove(places, branch.plus);
    }
}

/// Takes the entry of the node out, if it has one.
pub fn remove(places: &mut Places, node: NodeId)
    ensures count { length places.new.items ≡ length places.old.items }
    ensures places { (name : ℕ) → place_in places.new.items name ≡ (if node == name then None else place_in places.old.items name) }
{
    if let Some(place) = places.get_mut(node as usize) {
        *place = None;
    }
}
