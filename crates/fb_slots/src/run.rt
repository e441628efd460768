//! The run of a board that came to its end.

ghost use Rattle.std.specs.Prelude.{◌≡◌, ◌+◌, ◌*◌, ◌≤◌, ◌<◌, ◌^◌, None, length, IfOk};
ghost use Rattle.std.specs.List.{All, Contains};
ghost use Rattle.fb_book.specs.Books.{AreRootPieces};
ghost use Rattle.fb_book.specs.Machine.{IsComplete};
ghost use Rattle.fb_plan.specs.Plans.{node_count};
ghost use Rattle.fb_slots.specs.Listed.{listing};
ghost use Rattle.fb_slots.specs.Ordered.{IsByItem};
ghost use Rattle.fb_slots.specs.Seats.{ends_in, entries_in};
ghost use Rattle.fb_slots.specs.Slots.{layout_of};

use crate::board::{Closed, SlotBook};
use crate::history::history_of;
use crate::seats::SlotSeat;
use fb_book::{Board, Entry, Piece};
use fb_graph::NoMemory;
use fb_plan::Job;
use std::alloc::Global;
use std::marker::Model;

/// What a board leaves where no item was left: the piece of each slot's root, in the order of the slots, the history of
/// what its seats did, item by item, and how many seats it had. Only a board makes one, at its end, of all its seats.
#[derive(Drop)]
pub struct Run<P: Piece> {
    roots: Vec<P>,
    history: Vec<Entry>,
    seats: u64,
}

impl<P: Piece> Model for Run<P> {
    ghost use Rattle.fb_slots.specs.Runs.{RunValue};

    ghost Value = { RunValue P };

    ghost view = { λ r. record { roots = r.roots.items; history = r.history.items; seats = r.seats } };
}

impl<P: Piece> Run<P> {
    /// The piece of each slot's root.
    pub fn roots(&self) -> &[P]
        ensures { result.now ≡ self.now.roots }
    {
        self.roots.as_slice()
    }

    /// What the seats did, by slot, then node.
    pub fn history(&self) -> &[Entry]
        ensures { result.now ≡ self.now.history }
    {
        self.history.as_slice()
    }

    /// How many seats the board had.
    pub fn seats(&self) -> u64
        ensures { result ≡ self.now.seats }
    {
        self.seats
    }

    /// The roots and the history.
    pub fn into_parts(self) -> (Vec<P>, Vec<Entry>)
        ensures { (result.0.items ≡ self.roots) × (result.1.items ≡ self.history) }
    {
        let Run { roots, history, .. } = self;
        (roots, history)
    }
}

impl<P: Piece, N: Board> SlotBook<P, N> {
    /// Ends the run, as `close` does, and lists what the seats did: `entries`, one seat's after another's. An item that
    /// was left was left for want of memory.
    pub fn finish(
        self,
        alloc: Global,
        job: &Job<'_>,
        seats: Vec<SlotSeat<P, N>>,
        entries: &[Entry],
    ) -> Result<Run<P>, NoMemory>
        requires job { N.job ≡ job.now }
        requires few { N.workers < 2 ^ 32 }
        requires own { All (λ s. s.board ≡ self) seats.items }
        requires all { length seats.items ≡ N.workers + 1 }
        requires ended { 0 < ends_in seats.items }
        requires free { All (λ s. s.held ≡ None) seats.items }
        requires entries { entries.now ≡ entries_in seats.items }
        ensures roots { IfOk result (λ r. AreRootPieces P.job_of P.slot_of P.node_of P.made_of N.job r.roots) }
        ensures listing { IfOk result (λ r. r.history ≡ listing (node_count N.job.plan)
            (length N.job.shots * node_count N.job.plan) (entries_in seats.items)) }
        ensures own { IfOk result (λ r. All (Contains (entries_in seats.items)) r.history) }
        ensures complete { let b = layout_of N.job N.workers in
            IfOk result (λ r. IsComplete b.kids b.nodes b.count r.history) }
        ensures order { IfOk result (λ r. IsByItem (node_count N.job.plan) r.history) }
        ensures workers { IfOk result (λ r. All (λ e. e.worker ≤ N.workers) r.history) }
        ensures count { IfOk result (λ r. length r.history ≡ length entries.now) }
        ensures seats { IfOk result (λ r. r.seats ≡ length seats.items) }
    {
        let count = seats.len() as u64;
        let Closed::Roots(roots) = self.close(seats) else {
            return Err(NoMemory);
        };
        let history = history_of::<N>(alloc, job, entries)?;
        Ok(Run {
            roots,
            history,
            seats: count,
        })
    }
}
