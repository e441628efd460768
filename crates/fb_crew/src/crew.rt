//! All items of a job by workers side by side.

ghost use Rattle.std.specs.Prelude.{◌≡◌, ◌+◌, ◌-◌, ◌*◌, ◌^◌, ◌≤◌, ◌<◌, [], length, min, All, Err, IfNone, IfOk, IfSome, MatchResult, OnOk, OnSome};
ghost use Rattle.fb_book.specs.Books.{AreRootPieces};
ghost use Rattle.fb_plan.specs.Plans.{node_count};
ghost use Rattle.fb_hands.specs.Gates.{HasPassed};
ghost use Rattle.fb_hands.specs.Jobs.{IsCompleteOf};
ghost use Rattle.fb_slots.specs.Ordered.{IsByItem};
ghost use Rattle.fb_slots.specs.Seats.{entries_in};
ghost use Rattle.fb_crew.specs.InternalSeats.{IsEnded, IsNew};
ghost use Rattle.fb_crew.specs.Windows.{defect_count, seat_count};
ghost use denote.Param.Send.{IsSync};

use crate::ends::finish;
use crate::finished::{Finished, Worked};
use crate::worker::Worker;
use fb_book::{Board, Entry, MOST_WORKERS, Piece};
use fb_graph::{NoMemory, Shot};
use fb_hands::{Gate, Hands, ItemRunner};
use fb_plan::Job;
use fb_slots::{SlotBook, SlotSeat};
use std::alloc::Global;
use std::marker::Brand;
use std::thread;
use std::thread::Threads;

/// A worker with its tools.
#[derive(Drop)]
struct EquippedWorker<P: Piece, T: Drop, N: Board> {
    worker: Worker<P, N>,
    tools: T,
}

impl<P: Piece, T: Drop, N: Board> EquippedWorker<P, T, N> {
    /// Does items until no unit is left.
    fn work<H: Hands<P, T>, G: Gate>(
        mut self,
        board: &SlotBook<P, N>,
        runner: &ItemRunner<'_, H, G>,
    ) -> Result<EquippedWorker<P, T, N>, NoMemory>
        requires hands { H.job runner.now.hands.now ≡ N.job }
        requires new { IsNew board.now self.worker.seat }
        ensures { IfOk result (λ m. IsEnded board.now (G.passed runner.now.gate.now) m.worker.seat) }
    {
        self.worker.work(board, runner, &mut self.tools)?;
        Ok(self)
    }
}

/// What the members of a crew leave: their seats and tools, and the list of all that they did.
#[derive(Drop)]
struct Left<P: Piece, T: Drop, N: Board> {
    seats: Vec<SlotSeat<P, N>>,
    tools: Vec<T>,
    entries: Vec<Entry>,
    ghost same: { entries.items ≡ entries_in seats.items },
}

/// A member for each seat, with the last of the tools.
fn seat_members<P: Piece, T: Drop, N: Board>(
    alloc: Global,
    board: &SlotBook<P, N>,
    mut seats: Vec<SlotSeat<P, N>>,
    tools: &mut Vec<T>,
) -> Result<Vec<EquippedWorker<P, T, N>>, NoMemory>
    requires new { All (IsNew board.now) seats.items }
    requires tools { length seats.items ≤ length tools.old.items }
    ensures new { IfOk result (λ members. All (λ m. IsNew board.now m.worker.seat) members.items) }
    ensures count { IfOk result (λ members. length members.items ≡ length seats.items) }
    ensures tools { OnOk result (length tools.new.items + length seats.items ≡ length tools.old.items) }
{
    let _board = board;
    let mut members = Vec::with_capacity(alloc, seats.len())?;
    while let Some(seat) = seats.pop() {
        let Some(tools) = tools.pop() else {
            unreachable!()
        };
        let worker = Worker::new(alloc, seat);
        members.push(EquippedWorker { worker, tools })?;
    }
    Ok(members)
}

/// Takes members apart that have ended, and puts their tools to the others.
fn take_apart<P: Piece, T: Drop, H, G: Gate, N: Board>(
    runner: &ItemRunner<'_, H, G>,
    board: &SlotBook<P, N>,
    mut members: Vec<EquippedWorker<P, T, N>>,
    mut tools: Vec<T>,
) -> Result<Left<P, T, N>, NoMemory>
    requires ended { All (λ m. IsEnded board.now (G.passed runner.now.gate.now) m.worker.seat) members.items }
    ensures ended { IfOk result (λ left. All (IsEnded board.now (G.passed runner.now.gate.now)) left.seats.items) }
    ensures count { IfOk result (λ left. length left.seats.items ≡ length members.items) }
    ensures tools { IfOk result (λ left. length left.tools.items ≡ length tools.items + length members.items) }
{
    let _board = board;
    let mut seats = Vec::with_capacity(runner.alloc, members.len())?;
    let mut entries = Vec::new(runner.alloc);
    while let Some(member) = members.pop() {
        let EquippedWorker {
            worker,
            tools: tool,
        } = member;
        let Worker {
            seat,
            entries: mut list,
            ..
        } = worker;
        entries.append(&mut list)?;
        seats.push(seat)?;
        tools.push(tool)?;
    }
    Ok(Left {
        seats,
        tools,
        entries,
    })
}

/// The last member, and the others.
fn pop_member<P: Piece, T: Drop, N: Board>(
    board: &SlotBook<P, N>,
    members: &mut Vec<EquippedWorker<P, T, N>>,
) -> Option<EquippedWorker<P, T, N>>
    requires { All (λ m. IsNew board.now m.worker.seat) members.old.items }
    ensures last { IfSome result (λ m. IsNew board.now m.worker.seat) }
    ensures others { All (λ m. IsNew board.now m.worker.seat) members.new.items }
    ensures none { IfNone result (members.old.items ≡ []) }
    ensures same { IfNone result (members.new.items ≡ []) }
    ensures some { OnSome result (length members.old.items ≡ length members.new.items + 1) }
{
    let _board = board;
    members.pop()
}

/// The members with one more, if memory sufficed for all of them.
fn join_member<P: Piece, T: Drop, H, G: Gate, N: Board>(
    runner: &ItemRunner<'_, H, G>,
    board: &SlotBook<P, N>,
    members: Result<Vec<EquippedWorker<P, T, N>>, NoMemory>,
    member: Result<EquippedWorker<P, T, N>, NoMemory>,
) -> Result<Vec<EquippedWorker<P, T, N>>, NoMemory>
    requires members { IfOk members (λ ms. All (λ m. IsEnded board.now (G.passed runner.now.gate.now) m.worker.seat) ms.items) }
    requires member { IfOk member (λ m. IsEnded board.now (G.passed runner.now.gate.now) m.worker.seat) }
    ensures ended { IfOk result (λ ms. All (λ m. IsEnded board.now (G.passed runner.now.gate.now) m.worker.seat) ms.items) }
    ensures count { MatchResult members (λ others. IfOk result (λ ms. length ms.items ≡ length others.items + 1))
        (λ e. result ≡ Err e) }
{
    let (_bench, _board) = (runner, board);
    let mut members = members?;
    members.push(member?)?;
    Ok(members)
}

/// Lets each member do items until no unit is left. The first one is on the calling thread, and each other one on a
/// thread of its own. The calling thread starts them all: a system tends to put a new thread on the processor of the
/// one that starts it, which a worker keeps busy. A worker for which no thread can be made begins once the calling
/// thread's own has ended. The calls are as deep as there are members, at most `MOST_WORKERS`.
fn work_each<
    P: Piece + Send + Sync,
    T: Send + Drop,
    H: Hands<P, T>,
    G: Gate,
    N: Board + Send + Sync,
    R: Threads + Sync,
>(
    rt: &R,
    board: &SlotBook<P, N>,
    runner: &ItemRunner<'_, H, G>,
    mut members: Vec<EquippedWorker<P, T, N>>,
) -> Result<Vec<EquippedWorker<P, T, N>>, NoMemory>
    requires hands { H.job runner.now.hands.now ≡ N.job }
    requires new { All (λ m. IsNew board.now m.worker.seat) members.items }
    ensures ended { IfOk result (λ ms. All (λ m. IsEnded board.now (G.passed runner.now.gate.now) m.worker.seat) ms.items) }
    ensures count { IfOk result (λ ms. length ms.items ≡ length members.items) }
{
    let Some(member) = pop_member(board, &mut members) else {
        return Ok(members);
    };
    if members.is_empty() {
        return join_member(runner, board, Ok(members), member.work(board, runner));
    }
    let last = move || -> Result<EquippedWorker<P, T, N>, NoMemory>
        requires { (H.job runner.now.hands.now ≡ N.job) × IsNew board.now member.worker.seat }
        ensures { IfOk result (λ m. IsEnded board.entry.now (G.passed runner.entry.now.gate.now) m.worker.seat) }
    { member.work(board, runner) };
    let others = move || -> Result<Vec<EquippedWorker<P, T, N>>, NoMemory>
        requires { IsSync R.row × (H.job runner.now.hands.now ≡ N.job)
            × All (λ m. IsNew board.now m.worker.seat) members.items }
        ensures { IfOk result (λ ms. All (λ m. IsEnded board.entry.now (G.passed runner.entry.now.gate.now) m.worker.seat)
            ms.items)
            × IfOk result (λ ms. length ms.items ≡ length members.items) }
    { work_each(rt, board, runner, members) };
    let (member, members) = thread::join(rt, last, others);
    join_member(runner, board, members, member)
}

/// The number of defects of a job for which one more worker is used, so that a job of few defects starts no threads that
/// cost more than they save.
const DEFECTS_PER_WORKER: u64 = 384;

/// The number of defects that the shots list, or `u64::MAX` if they list more.
fn count_defects(shots: &[Shot]) -> u64
    ensures { result ≡ min (defect_count shots.now) (2 ^ 64 - 1) }
{
    let mut count: u64 = 0;
    for shot in shots {
        count = count.saturating_add(u64::from(shot.len()));
    }
    count
}

/// How many workers a job is worth. One for each unit of each slot, if there are as many tools. Else one, and one more for
/// each `DEFECTS_PER_WORKER` defects, but no more than tools. At least one.
fn worker_count(job: &Job<'_>, tools: u32) -> u32
    requires { 1 ≤ tools }
    ensures { result ≡ seat_count tools (length job.now.shots * job.now.plan.units) (defect_count job.now.shots) }
{
    let units = job
        .shots()
        .len()
        .saturating_mul(job.plan().units() as usize);
    if units <= tools as usize {
        return units.max(1) as u32;
    }
    let worth = 1 + count_defects(job.shots()) / DEFECTS_PER_WORKER;
    worth.min(u64::from(tools)) as u32
}

/// Does all items with this number of workers beside the caller, in a run that N names. Tools that are left over stay
/// unused.
fn run_all<
    P: Piece + Send + Sync,
    T: Send + Drop,
    H: Hands<P, T>,
    G: Gate,
    N: Board + Send + Sync,
    R: Threads + Sync,
>(
    rt: &R,
    runner: &ItemRunner<'_, H, G>,
    job: &Job<'_>,
    beside: u32,
    mut tools: Vec<T>,
) -> Result<Worked<P, T>, NoMemory>
    requires hands { H.job runner.now.hands.now ≡ N.job }
    requires job { N.job ≡ job.now }
    requires workers { N.workers ≡ beside }
    requires tools { beside < length tools.items }
    ensures roots { IfOk result (λ w. AreRootPieces P.job_of P.slot_of P.node_of P.made_of N.job w.run.roots) }
    ensures history { IfOk result (λ w. IsCompleteOf N.job w.run.history) }
    ensures order { IfOk result (λ w. IsByItem (node_count N.job.plan) w.run.history) }
    ensures seats { IfOk result (λ w. w.run.seats ≡ N.workers + 1) }
    ensures workers { IfOk result (λ w. All (λ e. e.worker ≤ N.workers) w.run.history) }
    ensures passed { IfOk result (λ w. All (HasPassed (G.passed runner.now.gate.now)) w.run.history) }
    ensures made { IfOk result (λ w. w.made ≡ length w.run.history) }
    ensures tools { IfOk result (λ w. length w.tools.items ≡ length tools.items) }
{
    let (board, seats) = SlotBook::<P, N>::new(runner.alloc, job, beside)?;
    let members = seat_members(runner.alloc, &board, seats, &mut tools)?;
    let members = work_each(rt, &board, runner, members)?;
    let Left {
        seats,
        tools,
        entries,
        ..
    } = take_apart(runner, &board, members, tools)?;
    let Finished { run, made } = finish(runner, job, board, seats, entries.as_slice())?;
    Ok(Worked { run, made, tools })
}

/// Does all items of the job by this number of workers, each on a thread of its own but one, which is on the calling
/// thread. Nobody waits for another one. A job of fewer units in all its slots has fewer workers, one for each; and one of
/// more units has no more than its defects are worth: one, and one more for each 384 defects. A worker that runs out of
/// memory leaves its item and ends; the others go on until no unit is left. Who gave an item by the history has passed
/// the gate with it.
pub fn work_all<P: Piece + Send + Sync, T: Send + Drop, H: Hands<P, T>, G: Gate, R: Threads + Sync>(
    rt: &R,
    alloc: Global,
    job: &Job<'_>,
    workers: u32,
    hands: &H,
    gate: &G,
    tools: Vec<T>,
) -> Result<Worked<P, T>, NoMemory>
    requires hands { H.job hands.now ≡ job.now }
    requires workers { (1 ≤ workers) × (workers ≤ MOST_WORKERS) × (length tools.items ≡ workers) }
    ensures roots { IfOk result (λ w. AreRootPieces P.job_of P.slot_of P.node_of P.made_of job.now w.run.roots) }
    ensures history { IfOk result (λ w. IsCompleteOf job.now w.run.history) }
    ensures order { IfOk result (λ w. IsByItem (node_count job.now.plan) w.run.history) }
    ensures workers { IfOk result (λ w. All (λ e. e.worker ≤ workers) w.run.history) }
    ensures seats { IfOk result (λ w. w.run.seats ≡ seat_count workers (length job.now.shots * job.now.plan.units)
        (defect_count job.now.shots)) }
    ensures numbers { IfOk result (λ w. All (λ e. e.worker < w.run.seats) w.run.history) }
    ensures passed { IfOk result (λ w. All (HasPassed (G.passed gate.now)) w.run.history) }
    ensures made { IfOk result (λ w. w.made ≡ length w.run.history) }
    ensures tools { IfOk result (λ w. length w.tools.items ≡ workers) }
{
    let runner = ItemRunner { alloc, hands, gate };
    let beside = worker_count(job, workers) - 1;
    run_all::<P, T, H, G, Brand, R>(rt, &runner, job, beside, tools)
}
