//! Pieces by the places of their items.

ghost use Rattle.std.specs.Prelude.{◌≡◌, ℕ, ◌+◌, ◌-◌, ◌*◌, ◌^◌, ◌<◌, ◌≤◌, true, is_some, Some, None, [], length, get_or, slice_get, slice_set, replicate, vec_capacity, IfOk};
ghost use Rattle.fb_book.specs.InternalBoard.{node_limit};

use crate::moves::{count_of, root_place};
use fb_graph::NoMemory;
use std::alloc::Global;

/// A place for each item, with no piece. Room for all is reserved at once.
pub fn empty_places<P: Drop>(
    alloc: Global,
    slots: usize,
    nodes: usize,
) -> Result<Vec<Option<P>>, NoMemory>
    requires slots { slots < 2 ^ 32 }
    requires nodes { nodes < node_limit }
    ensures { IfOk result (λ v. v.items ≡ replicate (slots * nodes) None) }
{
    let count = count_of(slots, nodes);
    let mut places = Vec::with_capacity(alloc, count)?;
    for _ in 0..count {
        places.push_reserved(None);
    }
    Ok(places)
}

/// Takes the piece at this place out.
pub fn take_out<P: Drop>(parked: &mut Vec<Option<P>>, place: usize) -> P
    requires place { place < length parked.old.items }
    requires waits { is_some (get_or parked.old.items place None) ≡ true }
    ensures value { get_or parked.old.items place None ≡ Some result }
    ensures rest { parked.new.items ≡ slice_set parked.old.items place None }
{
    let Some(piece) = parked[place].take() else {
        unreachable!()
    };
    piece
}

/// Takes the pieces of all slots' roots out, in the order of the slots.
pub fn roots_of<P: Drop>(
    parked: &mut Vec<Option<P>>,
    roots: &mut Vec<P>,
    slots: usize,
    nodes: usize,
)
    requires some { 0 < nodes }
    requires slots { slots < 2 ^ 32 }
    requires nodes { nodes < node_limit }
    requires count { length parked.old.items ≡ slots * nodes }
    requires waits { (s : ℕ) → s < slots → is_some (get_or parked.old.items (s * nodes + (nodes - 1)) None) ≡ true }
    requires empty { roots.old.items ≡ [] }
    requires room { slots ≤ vec_capacity roots.old }
    ensures count { length roots.new.items ≡ slots }
    ensures each { (s : ℕ) → s < slots
        → get_or parked.old.items (s * nodes + (nodes - 1)) None ≡ slice_get roots.new.items s }
{
    for slot in 0..slots {
        let piece = take_out(parked, root_place(slot, nodes));
        roots.push_reserved(piece);
    }
}
