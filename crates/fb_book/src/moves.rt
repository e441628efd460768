//! What is read and written when an item is taken, given or left. An item is named by its place.

ghost use Rattle.std.specs.Prelude.{◌≡◌, ◌+◌, ◌-◌, ◌*◌, ◌/◌, ◌%◌, ◌^◌, ◌<◌, ◌≤◌, ◌&&◌, ◌∷◌, [], ◌++◌, length, IfSome, slice_set, vec_capacity};
ghost use Rattle.fb_book.specs.Machine.{is_idle, is_given, is_held_by, are_given, status_at, with_used};
ghost use Rattle.fb_book.specs.Board.{kids_in};
ghost use Rattle.fb_book.specs.InternalBoard.{AreWithin, entry_at, after_unit, parent_place, ready_parent, node_limit};

use crate::entries::{Entry, EntryKind, Status};

/// The places of an item's children; a unit has none.
pub fn kids_at(units: usize, joins: &[(u32, u32)], place: usize) -> Option<(usize, usize)>
    requires some { 0 < units }
    requires few { units + length joins.now < 2 ^ 32 }
    requires place { place < 2 ^ 60 }
    ensures { result ≡ kids_in units joins.now place }
{
    let nodes = units + joins.len();
    let node = place % nodes;
    if node < units {
        return None;
    }
    let base = place / nodes * nodes;
    let (left, right) = joins[node - units];
    Some((base + left as usize, base + right as usize))
}

/// The place of the fusion that an item is a child of.
pub fn parent_at(nodes: usize, parents: &[Option<u32>], place: usize) -> Option<usize>
    requires count { length parents.now ≡ nodes }
    requires some { 0 < nodes }
    requires place { place < 2 ^ 60 }
    ensures { result ≡ parent_place nodes parents.now place }
{
    let parent = parents[place % nodes]?;
    Some(place / nodes * nodes + parent as usize)
}

/// Whether the item is idle and its children are given.
pub fn is_takeable(statuses: &[Status], kids: Option<(usize, usize)>, place: usize) -> bool
    requires place { place < length statuses.now }
    requires kids { AreWithin kids (length statuses.now) }
    ensures { result ≡ (is_idle (status_at statuses.now place) && are_given statuses.now kids) }
{
    if !is_idle(statuses[place]) {
        return false;
    }
    match kids {
        None => true,
        Some((left, right)) => is_given(statuses[left]) && is_given(statuses[right]),
    }
}

/// The parent, if it is a fusion that can be taken.
pub fn takeable_parent(
    units: usize,
    joins: &[(u32, u32)],
    parent: Option<usize>,
    statuses: &[Status],
) -> Option<usize>
    requires some { 0 < units }
    requires few { units + length joins.now < 2 ^ 32 }
    requires count { length statuses.now < 2 ^ 60 }
    requires place { IfSome parent (λ p. p < length statuses.now) }
    requires kids { IfSome parent (λ p. AreWithin (kids_in units joins.now p) (length statuses.now)) }
    ensures { result ≡ ready_parent (kids_in units joins.now) statuses.now parent }
{
    let parent = parent?;
    let kids = kids_at(units, joins, parent);
    if is_takeable(statuses, kids, parent) {
        Some(parent)
    } else {
        None
    }
}

/// The place of the unit after the one at this place. Units are the first nodes of a slot.
pub fn unit_after(units: usize, nodes: usize, place: usize) -> usize
    requires some { 0 < nodes }
    requires few { units < 2 ^ 32 }
    requires nodes { nodes < 2 ^ 32 }
    requires place { place < 2 ^ 60 }
    ensures { result ≡ after_unit units nodes place }
{
    if place % nodes + 1 < units {
        place + 1
    } else {
        place / nodes * nodes + nodes
    }
}

fn is_idle(status: Status) -> bool
    ensures { result ≡ is_idle status }
{
    match status {
        Status::Idle => true,
        Status::Held(_) => false,
        Status::Given => false,
        Status::Used => false,
        Status::Left => false,
    }
}

fn is_given(status: Status) -> bool
    ensures { result ≡ is_given status }
{
    match status {
        Status::Idle => false,
        Status::Held(_) => false,
        Status::Given => true,
        Status::Used => false,
        Status::Left => false,
    }
}

/// Whether the worker holds the item at this place.
pub fn holds(statuses: &[Status], worker: u32, place: usize) -> bool
    requires { place < length statuses.now }
    ensures { result ≡ is_held_by worker (status_at statuses.now place) }
{
    is_held_by(worker, statuses[place])
}

fn is_held_by(worker: u32, status: Status) -> bool
    ensures { result ≡ is_held_by worker status }
{
    match status {
        Status::Idle => false,
        Status::Held(holder) => worker == holder,
        Status::Given => false,
        Status::Used => false,
        Status::Left => false,
    }
}

/// The entry of the item at this place.
pub fn entry_of(kind: EntryKind, worker: u32, nodes: usize, place: usize) -> Entry
    requires some { 0 < nodes }
    requires few { nodes < 2 ^ 32 }
    requires slot { place / nodes < 2 ^ 32 }
    ensures { result ≡ entry_at kind worker nodes place }
{
    Entry {
        kind,
        worker,
        slot: (place / nodes) as u32,
        node: (place % nodes) as u32,
    }
}

/// The item at this place is taken, its children are used, and the entry goes into the history.
pub fn take(
    statuses: &mut Vec<Status>,
    history: &mut Vec<Entry>,
    kids: Option<(usize, usize)>,
    place: usize,
    entry: Entry,
)
    requires place { place < length statuses.old.items }
    requires kids { AreWithin kids (length statuses.old.items) }
    requires room { length history.old.items < vec_capacity history.old }
    ensures statuses { statuses.new.items
        ≡ slice_set (with_used kids statuses.old.items) place (Status.Held entry.worker) }
    ensures history { history.new.items ≡ history.old.items ++ entry ∷ [] }
    ensures room { vec_capacity history.new ≡ vec_capacity history.old }
{
    use_children(statuses, kids);
    statuses[place] = Status::Held(entry.worker);
    history.push_reserved(entry);
}

fn use_children(statuses: &mut [Status], kids: Option<(usize, usize)>)
    requires { AreWithin kids (length statuses.old) }
    ensures { statuses.new ≡ with_used kids statuses.old }
{
    if let Some((left, right)) = kids {
        statuses[left] = Status::Used;
        statuses[right] = Status::Used;
    }
}

/// The item at this place, which is held, comes to this status, and the entry goes into the history.
pub fn let_go(
    statuses: &mut Vec<Status>,
    history: &mut Vec<Entry>,
    place: usize,
    status: Status,
    entry: Entry,
)
    requires place { place < length statuses.old.items }
    requires room { length history.old.items < vec_capacity history.old }
    ensures statuses { statuses.new.items ≡ slice_set statuses.old.items place status }
    ensures history { history.new.items ≡ history.old.items ++ entry ∷ [] }
    ensures room { vec_capacity history.new ≡ vec_capacity history.old }
{
    statuses[place] = status;
    history.push_reserved(entry);
}

/// The place of an item in a run of slots of `nodes` nodes each.
#[tactic(auto, using(crate::proofs::Products::products))]
pub fn place_of(nodes: usize, slot: u32, node: u32) -> usize
    requires { nodes < node_limit }
    ensures { result ≡ slot * nodes + node }
{
    slot as usize * nodes + node as usize
}

/// The number of items.
#[tactic(auto, using(crate::proofs::Products::products))]
pub fn count_of(slots: usize, nodes: usize) -> usize
    requires slots { slots < 2 ^ 32 }
    requires nodes { nodes < node_limit }
    ensures value { result ≡ slots * nodes }
    ensures few { result ≤ 2 ^ 45 }
{
    slots * nodes
}

/// The place of a slot's root, which is its last node.
#[tactic(auto, using(crate::proofs::Products::products))]
pub fn root_place(slot: usize, nodes: usize) -> usize
    requires some { 0 < nodes }
    requires slot { slot < 2 ^ 32 }
    requires nodes { nodes < node_limit }
    ensures { result ≡ slot * nodes + (nodes - 1) }
{
    slot * nodes + (nodes - 1)
}
