//! A worker's seat at a board.

ghost use Rattle.std.specs.Prelude.{◌≡◌, ℕ, None, []};
ghost use Rattle.std.specs.List.{All};
ghost use Rattle.fb_plan.specs.Plans.{node_count};
ghost use Rattle.fb_slots.specs.Seats.{seat_value};
ghost use Rattle.fb_slots.specs.Slots.{IsClosed, IsSeat, layout_of};

use crate::calls::Holder;
use fb_book::{Board, Piece};
use std::marker::{Model, PhantomData};

/// What a worker claims and posts with. Contracts see its board, the worker's number, entries and counts of claims, and
/// the item that it holds.
#[derive(Drop)]
pub struct SlotSeat<P: Piece, N: Board> {
    pub(crate) worker: u32,
    pub(crate) holder: Holder<P>,
    of: PhantomData<N>,
}

impl<P: Piece, N: Board> Model for SlotSeat<P, N> {
    ghost use Rattle.fb_plan.specs.Plans.{node_count};
    ghost use Rattle.fb_slots.specs.Seats.{SeatValue, seat_value};
    ghost use Rattle.fb_slots.specs.Slots.{IsSeat, layout_of};

    ghost Value = { SeatValue };

    ghost view = { λ s. seat_value (node_count N.job.plan) s.holder.table_id s.worker s.holder.me };

    ghost invariant = { λ s. IsSeat (layout_of N.job N.workers) s.worker s.holder.me };
}

impl<P: Piece, N: Board> SlotSeat<P, N> {
    /// The seat of a worker.
    pub(crate) fn new(worker: u32, holder: Holder<P>) -> SlotSeat<P, N>
        requires { IsSeat (layout_of N.job N.workers) worker holder.me }
        ensures { result ≡ seat_value (node_count N.job.plan) holder.table_id worker holder.me }
    {
        SlotSeat {
            worker,
            holder,
            of: PhantomData,
        }
    }

    /// The worker's number, which all its entries name.
    pub fn worker(&self) -> u32
        ensures number { result ≡ self.now.worker }
        ensures own { All (λ e. e.worker ≡ self.now.worker) self.now.entries }
    {
        self.worker
    }

    /// What the worker stepped with.
    pub(crate) fn into_holder(self) -> Holder<P>
        ensures board { result.table_id ≡ self.board }
        ensures entries { result.me.0.entries ≡ self.entries }
        ensures ends { result.me.0.ends ≡ self.ends }
        ensures seats { result.me.0.seats ≡ 1 }
        ensures free { self.held ≡ None → result.me.1 ≡ [] }
        ensures closed { self.held ≡ None → (j : ℕ) → IsClosed (layout_of N.job N.workers)
            result.me.0 j }
    {
        let SlotSeat { holder, .. } = self;
        holder
    }
}
