//! The rule of the board, and what its steps say.

ghost use Rattle.fb_book.specs.Books.{IsPieceAt};
ghost use Rattle.fb_slots.specs.Slots.{layout_of};

use crate::views::Hand;
use atomic_table::{Join, Play, Split, TableRule};
use fb_book::{Board, Piece};
use std::marker::PhantomData;

/// The rule that the words, slots and views keep between any two steps.
pub struct Law<N: Board> {
    of: PhantomData<N>,
}

impl<P: Piece, N: Board> TableRule<Option<P>, Hand, ()> for Law<N> {
    ghost use Rattle.fb_slots.specs.Slots.{IsRuled, first_hand};

    ghost holds = { λ _ s. IsRuled (IsPieceAt P.job_of P.slot_of P.node_of P.made_of N.job)
        (layout_of N.job N.workers) s };

    ghost first = { λ _. first_hand (layout_of N.job N.workers) };
}

/// A claim of a unit.
pub struct ClaimPlay<N: Board> {
    of: PhantomData<N>,
}

impl<P: Piece, N: Board> Play<Option<P>, Hand> for ClaimPlay<N> {
    ghost use Rattle.fb_slots.specs.Slots.{Claims};

    ghost then = { Claims (layout_of N.job N.workers) };
}

/// A count of an item that is given.
pub struct CountPlay<N: Board> {
    of: PhantomData<N>,
}

impl<P: Piece, N: Board> Play<Option<P>, Hand> for CountPlay<N> {
    ghost use Rattle.fb_slots.specs.Slots.{Counts};

    ghost then = { Counts (IsPieceAt P.job_of P.slot_of P.node_of P.made_of N.job)
        (layout_of N.job N.workers) };
}

/// A mark that an item is left.
pub struct MarkPlay<N: Board> {
    of: PhantomData<N>,
}

impl<P: Piece, N: Board> Play<Option<P>, Hand> for MarkPlay<N> {
    ghost use Rattle.fb_slots.specs.Slots.{Marks};

    ghost then = { Marks (layout_of N.job N.workers) };
}

/// A new seat has no entry, and the number of seats that are left for its worker's. Of two seats that become one, the
/// second one's entries come first.
pub struct SeatSplit;

impl Split<Hand> for SeatSplit {
    ghost use Rattle.std.specs.Prelude.{[], ◌-◌};
    ghost use Rattle.fb_slots.specs.Slots.{hand, with_less};

    ghost left = { with_less };

    ghost right = { λ v. hand (v.seats - 1) [] 0 1 0 };
}

impl Join<Hand> for SeatSplit {
    ghost use Rattle.std.specs.Prelude.{[]};
    ghost use Rattle.fb_slots.specs.Slots.{hand, with_other};

    ghost both = { with_other };

    ghost spent = { hand 0 [] 0 0 0 };
}
