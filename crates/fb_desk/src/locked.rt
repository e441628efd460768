//! What the lock of a crew holds.

ghost use Rattle.std.specs.Prelude.{◌≡◌, ◌+◌, ◌^◌, ◌≤◌, ◌<◌, true, false, Some, length, slice_set};
ghost use Rattle.fb_book.specs.declared.entries.EntryKind.TheVariants.{Gave, Left};
ghost use Rattle.fb_book.specs.Board.{Lets, TakesUnit};
ghost use Rattle.fb_book.specs.Books.{AreOfChildren, HandsOut, IsPieceAt, course_of, holds, place_of};

use crate::seat::Seat;
use fb_book::{Board, Book, Claim, Permit, Piece};
use std::sync::ledger;

/// The book of a run, and a ledger whose total is the number of its entries.
#[derive(Drop)]
pub(crate) struct Locked<P: Piece, N: Board> {
    pub book: Book<P, N>,
    pub events: ledger::Book<N>,
    pub ghost counted: { events.total ≡ length book.0 },
}

impl<P: Piece, N: Board> Locked<P, N> {
    /// The next item for the seat's worker. A claim that gives one is an event of the seat.
    pub fn claim<T: Drop>(&mut self, seat: &mut Seat<T, N>) -> Claim<P, N>
        ensures units { (permit : _) → result ≡ Claim.Unit permit → permit.node < N.job.plan.units }
        ensures pieces { (permit : _) (a b : P) → result ≡ Claim.Fusion permit a b
            → AreOfChildren P.job_of P.slot_of P.node_of P.made_of N.job permit.slot permit.node a b }
        ensures unit { (permit : _) → result ≡ Claim.Unit permit → TakesUnit (course_of N.job self.old.book.0)
            (course_of N.job self.new.book.0) seat.old.worker permit.slot permit.node }
        ensures fusion { (permit : _) (a b : P) → result ≡ Claim.Fusion permit a b
            → HandsOut (course_of N.job self.old.book.0) (course_of N.job self.new.book.0) seat.old.worker
            permit.slot permit.node self.old.book.1 self.new.book.1 a b }
        ensures not_yet { result ≡ Claim.NotYet → self.new.book ≡ self.old.book }
        ensures over { result ≡ Claim.Over → self.new.book ≡ self.old.book }
        ensures worker { seat.new.worker ≡ seat.old.worker }
    {
        let Locked { book, events } = self;
        book.keeps();
        match book.claim(seat.worker) {
            Claim::Unit(permit) => {
                seat.count(events);
                Claim::Unit(permit)
            }
            Claim::Fusion(permit, left, right) => {
                seat.count(events);
                Claim::Fusion(permit, left, right)
            }
            Claim::NotYet => Claim::NotYet,
            Claim::Over => Claim::Over,
        }
    }

    /// Posts the piece of the permit's item. Returns whether the permit's worker held it: then the post is an event of the
    /// seat.
    pub fn post<T: Drop>(&mut self, seat: &mut Seat<T, N>, permit: Permit<N>, piece: P) -> bool
        requires { IsPieceAt P.job_of P.slot_of P.node_of P.made_of N.job
            (place_of N.job permit.slot permit.node) piece }
        ensures posted { result ≡ true → Lets (course_of N.job self.old.book.0) (course_of N.job self.new.book.0)
            Gave permit.worker permit.slot permit.node × (self.new.book.1
            ≡ slice_set self.old.book.1 (place_of N.job permit.slot permit.node) (Some piece)) }
        ensures refused { result ≡ false → (self.new.book ≡ self.old.book)
            × (holds N.job self.old.book.0 permit.worker permit.slot permit.node ≡ false) }
        ensures worker { seat.new.worker ≡ seat.old.worker }
    {
        let Locked { book, events } = self;
        book.keeps();
        if book.post(permit, piece).is_err() {
            return false;
        }
        seat.count(events);
        true
    }

    /// Leaves the permit's item for want of memory, if the permit's worker holds it. Then it is an event of the seat.
    pub fn starve<T: Drop>(&mut self, seat: &mut Seat<T, N>, permit: Permit<N>)
        ensures held { holds N.job self.old.book.0 permit.worker permit.slot permit.node ≡ true
            → Lets (course_of N.job self.old.book.0) (course_of N.job self.new.book.0)
            Left permit.worker permit.slot permit.node }
        ensures worker { seat.new.worker ≡ seat.old.worker }
    {
        let Locked { book, events } = self;
        book.keeps();
        if book.starve(permit).is_ok() {
            seat.count(events);
        }
    }
}
