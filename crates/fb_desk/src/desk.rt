//! The lock at which workers claim and post, and a worker's loop.

ghost use Rattle.std.specs.Prelude.{◌≡◌, ◌<◌, length};
ghost use Rattle.fb_book.specs.Books.{AreOfChildren, IsPieceAt, place_of};

use crate::items::item_of;
use crate::locked::Locked;
use crate::seat::Seat;
use fb_book::{Board, Book, Claim, Permit, Piece};
use fb_hands::{Gate, Hands, ItemRunner};
use std::sync::{Condvar, Mutex, Wait, ledger};

/// The book of a run under a lock, and the signal that an item was posted or left.
#[derive(Drop)]
pub(crate) struct Desk<P: Piece, N: Board> {
    locked: Mutex<Locked<P, N>>,
    changed: Condvar,
}

impl<P: Piece, N: Board> Desk<P, N> {
    /// A desk with this book and a ledger of its entries.
    pub fn new(book: Book<P, N>, events: ledger::Book<N>) -> Desk<P, N>
        requires { events.total ≡ length book.0 }
    {
        Desk {
            locked: Mutex::new(Locked { book, events }),
            changed: Condvar::new(),
        }
    }

    /// What the lock holds.
    pub fn into_locked(self) -> Locked<P, N> {
        self.locked.into_inner()
    }

    /// The next item for the seat's worker. Waits while none can be taken yet.
    fn claim<T: Drop, R: Wait>(&self, rt: &R, seat: &mut Seat<T, N>) -> Claim<P, N>
        ensures worker { seat.new.worker ≡ seat.old.worker }
        ensures units { (permit : _) → result ≡ Claim.Unit permit → permit.node < N.job.plan.units }
        ensures pieces { (permit : _) (a b : P) → result ≡ Claim.Fusion permit a b
            → AreOfChildren P.job_of P.slot_of P.node_of P.made_of N.job permit.slot permit.node a b }
    {
        let mut locked = self.locked.lock(rt);
        for _ in rt.forever() {
            match locked.claim(seat) {
                Claim::NotYet => locked = self.changed.wait(rt, locked),
                claim => return claim,
            }
        }
        unreachable!()
    }

    /// Posts the piece of the permit's item. Returns whether the permit's worker held it.
    fn post<T: Drop, R: Wait>(
        &self,
        rt: &R,
        seat: &mut Seat<T, N>,
        permit: Permit<N>,
        piece: P,
    ) -> bool
        requires { IsPieceAt P.job_of P.slot_of P.node_of P.made_of N.job
            (place_of N.job permit.slot permit.node) piece }
        ensures { seat.new.worker ≡ seat.old.worker }
    {
        let posted = self.locked.lock(rt).post(seat, permit, piece);
        self.changed.notify_all();
        posted
    }

    /// Leaves the permit's item for want of memory.
    fn starve<T: Drop, R: Wait>(&self, rt: &R, seat: &mut Seat<T, N>, permit: Permit<N>)
        ensures { seat.new.worker ≡ seat.old.worker }
    {
        self.locked.lock(rt).starve(seat, permit);
        self.changed.notify_all();
    }

    /// Does the next item for the seat's worker. Returns whether the worker goes on: it ends if no item comes, if its post is
    /// refused, or if memory runs out.
    fn turn<T: Drop, H: Hands<P, T>, G: Gate, R: Wait>(
        &self,
        rt: &R,
        runner: &ItemRunner<'_, H, G>,
        seat: &mut Seat<T, N>,
    ) -> bool
        requires { H.job runner.now.hands.now ≡ N.job }
        ensures { seat.new.worker ≡ seat.old.worker }
    {
        match self.claim(rt, seat) {
            Claim::Unit(permit) => {
                let Ok(piece) = runner.unit::<P, T, N>(&mut seat.tools, item_of(&permit)) else {
                    self.starve(rt, seat, permit);
                    return false;
                };
                self.post(rt, seat, permit, piece)
            }
            Claim::Fusion(permit, left, right) => {
                let Ok(piece) = runner.fusion::<P, T, N>(
                    &mut seat.tools,
                    item_of(&permit),
                    left,
                    right,
                ) else {
                    self.starve(rt, seat, permit);
                    return false;
                };
                self.post(rt, seat, permit, piece)
            }
            Claim::NotYet => false,
            Claim::Over => false,
        }
    }

    /// Does items until the worker ends, and returns its seat.
    pub fn work<T: Drop, H: Hands<P, T>, G: Gate, R: Wait>(
        &self,
        rt: &R,
        runner: &ItemRunner<'_, H, G>,
        mut seat: Seat<T, N>,
    ) -> Seat<T, N>
        requires { H.job runner.now.hands.now ≡ N.job }
        ensures { result.worker ≡ seat.worker }
    {
        for _ in rt.forever() {
            if !self.turn(rt, runner, &mut seat) {
                return seat;
            }
        }
        unreachable!()
    }
}
