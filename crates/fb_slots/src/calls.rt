//! The steps of a board over its table.

ghost use Rattle.std.specs.Prelude.{◌≡◌, ℕ, ◌+◌, ◌-◌, ◌*◌, ◌<◌, ◌≤◌, ◌^◌, List, [], ◌∷◌, ◌++◌, Some, None, replicate, length, IfOk};
ghost use Rattle.atomic_table.specs.Table.{rest};
ghost use Rattle.fb_book.specs.declared.entries.EntryKind.TheVariants.{Took, Gave, Left};
ghost use Rattle.fb_book.specs.Machine.{trace};
ghost use Rattle.fb_book.specs.Books.{IsPieceAt};
ghost use Rattle.fb_slots.specs.Slots.{IsLayout, layout_of, first_hand, hand, out_of, with_entry, with_unit, with_end, with_less, with_other, Claims, TakesParent, IsHeld, IsCountOf};

use crate::law::{ClaimPlay, CountPlay, Law, MarkPlay, SeatSplit};
use crate::views::Hand;
use atomic_table::{Seat, Table};
use fb_book::{Board, Piece};
use fb_graph::NoMemory;
use std::alloc::Global;

/// The words and slots of a board.
pub type Slots<P, N> = Table<Option<P>, Hand, (), Law<N>, Global>;

/// What a worker steps with.
pub type Holder<P> = Seat<Option<P>, Hand>;

/// A table with nothing taken.
pub fn open<P: Piece, N: Board>(
    alloc: Global,
    words: &[u64],
    count: usize,
) -> Result<(Slots<P, N>, Holder<P>), NoMemory>
    requires layout { IsLayout (layout_of N.job N.workers) }
    requires words { words.now ≡ replicate ((layout_of N.job N.workers).count + 2) 0 }
    requires count { count ≡ (layout_of N.job N.workers).count }
    ensures ids { IfOk result (λ t. (t.1.table_id ≡ t.0.shared.table_id)
        × (t.0.shared.table_id.words ≡ length words.now)
        × (t.0.shared.table_id.slots ≡ count)) }
    ensures view { IfOk result (λ t. t.1.me ≡ (first_hand (layout_of N.job N.workers), [])) }
{
    Ok(Table::vacant(alloc, words, count, &())?)
}

/// The number of a unit that is then taken, if it is one.
pub fn claim<P: Piece, N: Board>(table: &Slots<P, N>, me: &mut Holder<P>) -> u64
    requires table { me.old.table_id ≡ table.now.shared.table_id }
    requires words { 0 < table.now.shared.table_id.words }
    requires layout { IsLayout (layout_of N.job N.workers) }
    requires open { me.old.me.0.ends < me.old.me.0.seats }
    ensures table { me.new.table_id ≡ me.old.table_id }
    ensures unit { result < (layout_of N.job N.workers).units
        → me.new.me ≡ (
          with_unit (layout_of N.job N.workers) ((layout_of N.job N.workers).unit_at result)
              me.old.me.0,
          ((layout_of N.job N.workers).unit_at result, None) ∷ me.old.me.1,
        ) }
    ensures fresh { result < (layout_of N.job N.workers).units
        → trace (layout_of N.job N.workers).nodes ((layout_of N.job N.workers).unit_at result)
        me.old.me.0.entries ≡ [] }
    ensures drawn { result < (layout_of N.job N.workers).units → me.old.me.0.drawn ≤ result }
    ensures end { (layout_of N.job N.workers).units ≤ result
        → me.new.me ≡ (with_end me.old.me.0, me.old.me.1) }
{
    table.shared.fetch_add::<ClaimPlay<N>>(me, 0, 1)
}

/// Gives the item that the holder has. It is counted on the word of the item at `counted`. If that word was 1, the
/// fusion there is taken.
pub fn give<P: Piece, N: Board>(
    table: &Slots<P, N>,
    me: &mut Holder<P>,
    place: usize,
    counted: usize,
    piece: P,
) -> u64
    requires table { me.old.table_id ≡ table.now.shared.table_id }
    requires words { table.now.shared.table_id.words ≡ (layout_of N.job N.workers).count + 2 }
    requires slots { table.now.shared.table_id.slots ≡ (layout_of N.job N.workers).count }
    requires layout { IsLayout (layout_of N.job N.workers) }
    requires held { IsHeld (layout_of N.job N.workers) me.old.me.0 place }
    requires holds { me.old.me.1 ≡ (place, None) ∷ out_of ((layout_of N.job N.workers).kids place) }
    requires counted { IsCountOf (layout_of N.job N.workers) place counted }
    requires piece { IsPieceAt P.job_of P.slot_of P.node_of P.made_of N.job place piece }
    ensures table { me.new.table_id ≡ me.old.table_id }
    ensures fusion { result ≡ 1
        → TakesParent (IsPieceAt P.job_of P.slot_of P.node_of P.made_of N.job)
        (layout_of N.job N.workers) place counted me.old.me.0 me.new.me }
    ensures alone { (result ≡ 1 → ⊥)
        → me.new.me ≡ (with_entry (layout_of N.job N.workers) Gave place me.old.me.0, []) }
{
    drop(table.shared.exchange(me, place, Some(piece)));
    table.shared.fetch_add::<CountPlay<N>>(me, counted + 2, 1)
}

/// Takes the piece out of the slot that was taken last. The slot goes behind the others.
pub fn take_out<P: Piece, N: Board>(table: &Slots<P, N>, me: &mut Holder<P>, place: usize) -> P
    requires table { me.old.table_id ≡ table.now.shared.table_id }
    requires holds { (p : P) × (me.old.me.1 ≡ (place, Some p) ∷ rest me.old.me.1) }
    ensures table { me.new.table_id ≡ me.old.table_id }
    ensures piece { me.old.me.1 ≡ (place, Some result) ∷ rest me.old.me.1 }
    ensures view { me.new.me ≡ (me.old.me.0, rest me.old.me.1 ++ (place, None) ∷ []) }
{
    let Some(piece) = table.shared.exchange(me, place, None) else {
        unreachable!()
    };
    me.turn();
    piece
}

/// Leaves the item that the holder has.
pub fn leave<P: Piece, N: Board>(table: &Slots<P, N>, me: &mut Holder<P>, place: usize)
    requires table { me.old.table_id ≡ table.now.shared.table_id }
    requires words { table.now.shared.table_id.words ≡ (layout_of N.job N.workers).count + 2 }
    requires layout { IsLayout (layout_of N.job N.workers) }
    requires held { IsHeld (layout_of N.job N.workers) me.old.me.0 place }
    requires holds { me.old.me.1 ≡ (place, None) ∷ out_of ((layout_of N.job N.workers).kids place) }
    ensures table { me.new.table_id ≡ me.old.table_id }
    ensures view { me.new.me ≡ (with_entry (layout_of N.job N.workers) Left place me.old.me.0, []) }
{
    let _place = place;
    table.shared.fetch_or::<MarkPlay<N>>(me, 1, 1);
}

/// A new holder, for the worker of the number of those that are left.
pub fn another<P: Piece, N: Board>(table: &Slots<P, N>, me: &mut Holder<P>) -> Holder<P>
    requires table { me.old.table_id ≡ table.now.shared.table_id }
    requires words { 0 < table.now.shared.table_id.words }
    requires layout { IsLayout (layout_of N.job N.workers) }
    requires more { me.old.me.0.ends + 1 < me.old.me.0.seats }
    ensures tables { (me.new.table_id ≡ me.old.table_id) × (result.table_id ≡ me.old.table_id) }
    ensures view { me.new.me ≡ (with_less me.old.me.0, me.old.me.1) }
    ensures new { result.me ≡ (hand (me.old.me.0.seats - 1) [] 0 1 0, []) }
{
    table.shared.split_seat::<SeatSplit>(me)
}

/// Takes in what another one has done.
pub fn gather<P: Piece, N: Board>(table: &Slots<P, N>, me: &mut Holder<P>, other: Holder<P>)
    requires table { me.old.table_id ≡ table.now.shared.table_id }
    requires other { (other.table_id ≡ table.now.shared.table_id) × (other.me.1 ≡ []) }
    requires words { 0 < table.now.shared.table_id.words }
    requires layout { IsLayout (layout_of N.job N.workers) }
    ensures table { me.new.table_id ≡ me.old.table_id }
    ensures view { me.new.me ≡ (
      with_other me.old.me.0 other.me.0,
      me.old.me.1,
    ) }
{
    table.shared.join_seat::<SeatSplit>(me, other);
}
