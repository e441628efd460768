//! The end of a board: its seats become one, and the slots are emptied.

ghost use Rattle.std.specs.Prelude.{◌≡◌, ℕ, ◌+◌, ◌-◌, ◌*◌, ◌<◌, ◌≤◌, Some, None, [], length, vec_capacity};
ghost use Rattle.std.specs.List.{All};
ghost use Rattle.std.specs.Mem.Slots.{slots_items, slots_filled, slots_len};
ghost use mathlib.Core.Option.{some};
ghost use lib.ListN.{get_elem?};
ghost use Rattle.fb_slots.specs.Ends.{IsEmptiedTo, AreAtRoots};
ghost use Rattle.fb_slots.specs.Seats.{ends_in, entries_in};
ghost use Rattle.fb_slots.specs.Slots.{IsClosed, IsLayout, layout_of};

use crate::calls::{Holder, Slots, gather};
use crate::seats::SlotSeat;
use atomic_table::Closed;
use fb_book::{Board, Piece};
use std::alloc::Global;

/// One holder with all that the seats have done.
pub fn join_all<P: Piece, N: Board>(
    table: &Slots<P, N>,
    mut seats: Vec<SlotSeat<P, N>>,
) -> Holder<P>
    requires own { All (λ s. s.board ≡ table.now.shared.table_id) seats.items }
    requires free { All (λ s. s.held ≡ None) seats.items }
    requires some { 0 < length seats.items }
    requires words { 0 < table.now.shared.table_id.words }
    requires layout { IsLayout (layout_of N.job N.workers) }
    ensures own { result.table_id ≡ table.now.shared.table_id }
    ensures free { result.me.1 ≡ [] }
    ensures entries { result.me.0.entries ≡ entries_in seats.items }
    ensures ends { result.me.0.ends ≡ ends_in seats.items }
    ensures seats { result.me.0.seats ≡ length seats.items }
    ensures closed { (j : ℕ) → IsClosed (layout_of N.job N.workers) result.me.0 j }
{
    let Some(last) = seats.pop() else {
        unreachable!()
    };
    let mut me = last.into_holder();
    while let Some(seat) = seats.pop() {
        gather(table, &mut me, seat.into_holder());
    }
    me
}

/// Drops what is in the next `count` slots, from this one on.
pub fn skip<P: Piece>(closed: &mut Closed<Option<P>, Global>, from: usize, count: usize)
    requires inside { from + count ≤ slots_len closed.old.slots }
    requires before { IsEmptiedTo (slots_filled closed.old.slots) from (slots_len closed.old.slots) }
    ensures after { IsEmptiedTo (slots_filled closed.new.slots) (from + count)
        (slots_len closed.new.slots) }
    ensures items { slots_items closed.new.slots ≡ slots_items closed.old.slots }
    ensures len { slots_len closed.new.slots ≡ slots_len closed.old.slots }
{
    for i in 0..count {
        drop(closed.take(from + i));
    }
}

/// Takes the pieces of the roots out, in the order of the slots, and drops the rest.
pub fn take_roots<P: Piece>(
    closed: &mut Closed<Option<P>, Global>,
    roots: &mut Vec<P>,
    slots: usize,
    nodes: usize,
)
    requires count { slots_len closed.old.slots ≡ slots * nodes }
    requires some { 0 < nodes }
    requires full { IsEmptiedTo (slots_filled closed.old.slots) 0 (slots_len closed.old.slots) }
    requires pieces { (s : ℕ) → s < slots
        → (p : P) × (get_elem? (slots_items closed.old.slots) (s * nodes + (nodes - 1)) ≡ some
        (Some p)) }
    requires empty { roots.old.items ≡ [] }
    requires room { slots ≤ vec_capacity roots.old }
    ensures after { IsEmptiedTo (slots_filled closed.new.slots) (slots * nodes)
        (slots_len closed.new.slots) }
    ensures len { slots_len closed.new.slots ≡ slots_len closed.old.slots }
    ensures roots { AreAtRoots nodes (slots_items closed.old.slots) slots roots.new.items }
{
    for slot in 0..slots {
        let from = slot * nodes;
        skip(closed, from, nodes - 1);
        let Some(piece) = closed.take(from + (nodes - 1)) else {
            unreachable!()
        };
        roots.push_reserved(piece);
    }
}
