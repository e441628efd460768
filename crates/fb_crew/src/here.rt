//! All items of a job on the calling thread.

ghost use Rattle.std.specs.Prelude.{◌≡◌, ◌+◌, ◌≤◌, length, All, IfOk};
ghost use Rattle.fb_book.specs.Books.{AreRootPieces};
ghost use Rattle.fb_plan.specs.Plans.{node_count};
ghost use Rattle.fb_hands.specs.Gates.{HasPassed};
ghost use Rattle.fb_hands.specs.Jobs.{IsCompleteOf};
ghost use Rattle.fb_slots.specs.Ordered.{IsByItem};

use crate::ends::finish;
use crate::finished::Finished;
use crate::worker::Worker;
use fb_book::{Board, Piece};
use fb_graph::NoMemory;
use fb_hands::{Gate, Hands, ItemRunner, OpenGate};
use fb_plan::Job;
use fb_slots::SlotBook;
use std::alloc::Global;
use std::marker::Brand;

/// Does all items as worker 0, in a run with no worker beside the caller.
fn run_here<P: Piece, T, H: Hands<P, T>, G: Gate, N: Board>(
    runner: &ItemRunner<'_, H, G>,
    job: &Job<'_>,
    tools: &mut T,
) -> Result<Finished<P>, NoMemory>
    requires hands { H.job runner.now.hands.now ≡ N.job }
    requires job { N.job ≡ job.now }
    requires workers { N.workers ≡ 0 }
    ensures roots { IfOk result (λ w. AreRootPieces P.job_of P.slot_of P.node_of P.made_of N.job w.run.roots) }
    ensures history { IfOk result (λ w. IsCompleteOf N.job w.run.history) }
    ensures order { IfOk result (λ w. IsByItem (node_count N.job.plan) w.run.history) }
    ensures seats { IfOk result (λ w. w.run.seats ≡ N.workers + 1) }
    ensures workers { IfOk result (λ w. All (λ e. e.worker ≤ N.workers) w.run.history) }
    ensures passed { IfOk result (λ w. All (HasPassed (G.passed runner.now.gate.now)) w.run.history) }
    ensures made { IfOk result (λ w. w.made ≡ length w.run.history) }
{
    let (board, mut seats) = SlotBook::<P, N>::new(runner.alloc, job, 0)?;
    let Some(seat) = seats.pop() else {
        unreachable!()
    };
    let mut worker = Worker::new(runner.alloc, seat);
    worker.work(&board, runner, tools)?;
    let Worker { seat, entries, .. } = worker;
    seats.push_reserved(seat);
    finish(runner, job, board, seats, entries.as_slice())
}

/// Does all items of the job on the calling thread, as worker 0.
pub fn work_here<P: Piece, T, H: Hands<P, T>>(
    alloc: Global,
    job: &Job<'_>,
    hands: &H,
    tools: &mut T,
) -> Result<Finished<P>, NoMemory>
    requires hands { H.job hands.now ≡ job.now }
    ensures roots { IfOk result (λ w. AreRootPieces P.job_of P.slot_of P.node_of P.made_of job.now w.run.roots) }
    ensures history { IfOk result (λ w. IsCompleteOf job.now w.run.history) }
    ensures order { IfOk result (λ w. IsByItem (node_count job.now.plan) w.run.history) }
    ensures seats { IfOk result (λ w. w.run.seats ≡ 1) }
    ensures workers { IfOk result (λ w. All (λ e. e.worker ≡ 0) w.run.history) }
    ensures made { IfOk result (λ w. w.made ≡ length w.run.history) }
{
    let runner = ItemRunner {
        alloc,
        hands,
        gate: &OpenGate,
    };
    run_here::<P, T, H, OpenGate, Brand>(&runner, job, tools)
}
