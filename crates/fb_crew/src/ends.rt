//! The end of a run: the roots, and the history of what its workers did.

ghost use Rattle.std.specs.Prelude.{◌≡◌, ◌+◌, ◌≤◌, ◌<◌, ◌^◌, length, All, IfOk};
ghost use Rattle.fb_book.specs.Books.{AreRootPieces};
ghost use Rattle.fb_plan.specs.Plans.{node_count};
ghost use Rattle.fb_hands.specs.Gates.{HasPassed};
ghost use Rattle.fb_hands.specs.Jobs.{IsCompleteOf};
ghost use Rattle.fb_slots.specs.Ordered.{IsByItem};
ghost use Rattle.fb_slots.specs.Seats.{entries_in};
ghost use Rattle.fb_crew.specs.InternalSeats.{IsEnded};

use crate::finished::Finished;
use fb_book::{Board, Entry, Piece};
use fb_graph::NoMemory;
use fb_hands::{Gate, ItemRunner};
use fb_plan::Job;
use fb_slots::{SlotBook, SlotSeat};

/// The finished job of a board whose workers have all ended.
pub(crate) fn finish<P: Piece, H, G: Gate, N: Board>(
    runner: &ItemRunner<'_, H, G>,
    job: &Job<'_>,
    board: SlotBook<P, N>,
    seats: Vec<SlotSeat<P, N>>,
    entries: &[Entry],
) -> Result<Finished<P>, NoMemory>
    requires job { N.job ≡ job.now }
    requires few { N.workers < 2 ^ 32 }
    requires all { length seats.items ≡ N.workers + 1 }
    requires ended { All (IsEnded board (G.passed runner.now.gate.now)) seats.items }
    requires entries { entries.now ≡ entries_in seats.items }
    ensures roots { IfOk result (λ w. AreRootPieces P.job_of P.slot_of P.node_of P.made_of N.job w.run.roots) }
    ensures history { IfOk result (λ w. IsCompleteOf N.job w.run.history) }
    ensures order { IfOk result (λ w. IsByItem (node_count N.job.plan) w.run.history) }
    ensures seats { IfOk result (λ w. w.run.seats ≡ N.workers + 1) }
    ensures workers { IfOk result (λ w. All (λ e. e.worker ≤ N.workers) w.run.history) }
    ensures passed { IfOk result (λ w. All (HasPassed (G.passed runner.now.gate.now)) w.run.history) }
    ensures made { IfOk result (λ w. w.made ≡ length w.run.history) }
{
    let run = board.finish(runner.alloc, job, seats, entries)?;
    Ok(Finished {
        run,
        made: entries.len() as u64,
    })
}
