//! All items of a job by workers side by side, which share a book under a lock.

ghost use Rattle.std.specs.Prelude.{◌≡◌, ◌+◌, ◌^◌, ◌<◌, ◌≤◌, length, vec_capacity, All, IfOk, OnOk, []};
ghost use Rattle.fb_book.specs.Board.{is_finished};
ghost use Rattle.fb_book.specs.Books.{AreRootPieces, course_of};
ghost use Rattle.fb_desk.specs.Numbers.{AreNumbered};
ghost use Rattle.fb_hands.specs.Jobs.{IsCompleteOf};
ghost use denote.Param.Send.{IsSync};

use crate::desk::Desk;
use crate::finished::{Finished, Worked};
use crate::here::{drain, finish, run_here};
use crate::locked::Locked;
use crate::seat::Seat;
use fb_book::{Board, Book, MOST_WORKERS, Piece};
use fb_graph::NoMemory;
use fb_half::both::both;
use fb_hands::{Gate, Hands, ItemRunner};
use fb_plan::Job;
use std::alloc::Global;
use std::marker::Brand;
use std::sync::ledger::{Blank, Share};
use std::sync::{Wait, ledger};
use std::thread;
use std::thread::Threads;

/// Takes the last `count` tools, and gives each a seat with a part of the ledger: the seats of the workers 0, 1 and so on.
fn take_seats<T: Drop, N: Board>(
    alloc: Global,
    tools: &mut Vec<T>,
    all: &mut Share<N>,
    count: u32,
) -> Result<Vec<Seat<T, N>>, NoMemory>
    requires tools { count ≤ length tools.old.items }
    requires workers { count ≤ N.workers }
    requires parts { count < all.old.parts }
    requires none { all.old.amount ≡ 0 }
    ensures count { IfOk result (λ seats. length seats.items ≡ count) }
    ensures numbers { IfOk result (λ seats. AreNumbered (λ s. s.worker) seats.items) }
    ensures tools { OnOk result (length tools.new.items + count ≡ length tools.old.items) }
    ensures room { vec_capacity tools.new ≡ vec_capacity tools.old }
    ensures parts { OnOk result (all.new.parts + count ≡ all.old.parts) }
    ensures none { all.new.amount ≡ 0 }
{
    let mut seats = Vec::with_capacity(alloc, count as usize)?;
    for worker in 0..count {
        let Some(tool) = tools.pop() else {
            unreachable!()
        };
        seats.push_reserved(Seat::new(worker, tool, all.split_off(1, 0)));
    }
    Ok(seats)
}

/// Puts the tools of the seats back. Returns the number of events that their workers have made: as many as the ledger has.
fn leave_seats<T: Drop, N: Board>(
    mut seats: Vec<Seat<T, N>>,
    tools: &mut Vec<T>,
    events: &mut ledger::Book<N>,
    all: &mut Share<N>,
) -> u64
    requires parts { all.old.parts + length seats.items ≡ N.parts }
    requires none { all.old.amount ≡ 0 }
    requires few { events.old.total < 2 ^ 63 }
    requires room { length tools.old.items + length seats.items ≤ vec_capacity tools.old }
    ensures events { result ≡ events.old.total }
    ensures tools { length tools.new.items ≡ length tools.old.items + length seats.items }
{
    let mut made = 0;
    while let Some(seat) = seats.pop() {
        all.merge(seat.share);
        events.audit(all);
        made += seat.made;
        tools.push_reserved(seat.tools);
    }
    events.audit(all);
    made
}

/// The book of a run, and how many events its workers have made by their own counts: as many as it has entries.
#[derive(Drop)]
struct Counted<P: Piece, N: Board> {
    book: Book<P, N>,
    made: u64,
    ghost counted: { length book.0 ≡ made },
}

/// Does the items that are left once the workers have ended, as one more worker. Returns how many events it has made.
fn do_rest<P: Piece, T, H: Hands<P, T>, G: Gate, N: Board>(
    runner: &ItemRunner<'_, H, G>,
    book: &mut Book<P, N>,
    worker: u32,
    tools: &mut T,
) -> Result<u64, NoMemory>
    requires hands { H.job runner.now.hands.now ≡ N.job }
    requires worker { worker ≤ N.workers }
    ensures { IfOk result (λ made. length book.new.0 ≡ length book.old.0 + made) }
{
    if book.is_starved() {
        return Err(NoMemory);
    }
    drain(runner, book, worker, tools)
}

/// Does what is left of a job once its workers have ended, as one more worker. If items stay open all the same, does the
/// whole job anew.
fn complete<P: Piece, T, H: Hands<P, T>, G: Gate, N: Board>(
    runner: &ItemRunner<'_, H, G>,
    job: &Job<'_>,
    workers: u32,
    counted: Counted<P, N>,
    tools: &mut T,
) -> Result<Finished<P>, NoMemory>
    requires hands { H.job runner.now.hands.now ≡ N.job }
    requires job { N.job ≡ job.now }
    requires workers { N.workers ≡ workers }
    ensures roots { IfOk result (λ w. AreRootPieces P.job_of P.slot_of P.node_of P.made_of N.job w.roots.items) }
    ensures history { IfOk result (λ w. IsCompleteOf N.job w.history.items) }
    ensures workers { IfOk result (λ w. All (λ e. e.worker ≤ N.workers) w.history.items) }
    ensures made { IfOk result (λ w. w.made ≡ length w.history.items) }
{
    let Counted { mut book, made } = counted;
    let (rest, book) = both(do_rest(runner, &mut book, workers, tools), book)?;
    book.keeps();
    if book.is_done() {
        return Ok(finish(book, made + rest));
    }
    drop(book);
    run_here::<P, T, H, G, N>(runner, job, workers, tools)
}

/// Lets each seat's worker do items until it ends, and gives all seats back. The first seat's worker is on
/// the calling thread, and each other one on a thread of its own. The calling thread starts them all: a system tends to
/// put a new thread on the processor of the one that starts it, which a worker keeps busy. A worker for which no thread
/// can be made begins once the calling thread's own has ended. The calls are as deep as there are seats, at most
/// `MOST_WORKERS`.
fn work_each<
    P: Piece + Send,
    T: Send + Drop,
    H: Hands<P, T>,
    G: Gate,
    N: Board + Send + Sync,
    R: Threads + Wait + Sync,
>(
    rt: &R,
    desk: &Desk<P, N>,
    runner: &ItemRunner<'_, H, G>,
    mut seats: Vec<Seat<T, N>>,
) -> Vec<Seat<T, N>>
    requires hands { H.job runner.now.hands.now ≡ N.job }
    requires numbers { AreNumbered (λ s. s.worker) seats.items }
    ensures numbers { AreNumbered (λ s. s.worker) result.items }
    ensures count { length result.items ≡ length seats.items }
    ensures room { vec_capacity result ≡ vec_capacity seats }
{
    let Some(seat) = seats.pop() else {
        return seats;
    };
    if seats.is_empty() {
        seats.push_reserved(desk.work(rt, runner, seat));
        return seats;
    }
    let last = move || -> Seat<T, N>
        requires { H.job runner.now.hands.now ≡ N.job }
        ensures { result.worker ≡ seat.worker }
    { desk.work(rt, runner, seat) };
    let others = move || -> Vec<Seat<T, N>>
        requires { IsSync R.row × (H.job runner.now.hands.now ≡ N.job) × AreNumbered (λ s. s.worker) seats.items }
        ensures { (length result.items ≡ length seats.items) × (vec_capacity result ≡ vec_capacity seats)
            × AreNumbered (λ s. s.worker) result.items }
    { work_each(rt, desk, runner, seats) };
    let (seat, mut seats) = thread::join(rt, last, others);
    seats.push_reserved(seat);
    seats
}

/// Lets a worker for each of the tools do the items of the book, but no more workers than there are items. Returns the book
/// and the tools.
fn join_workers<
    P: Piece + Send,
    T: Send + Drop,
    H: Hands<P, T>,
    G: Gate,
    N: Board + Send + Sync,
    R: Threads + Wait + Sync,
>(
    rt: &R,
    runner: &ItemRunner<'_, H, G>,
    book: Book<P, N>,
    blank: Blank,
    mut tools: Vec<T>,
) -> Result<(Counted<P, N>, Vec<T>), NoMemory>
    requires hands { H.job runner.now.hands.now ≡ N.job }
    requires new { book.0 ≡ [] }
    requires name { blank.name ≡ N.name }
    requires parts { blank.parts ≡ N.parts }
    requires one_each { blank.parts ≡ N.workers + 1 }
    requires tools { length tools.items ≡ N.workers }
    requires some { (1 ≤ N.workers) × (N.workers ≤ MOST_WORKERS) }
    ensures { IfOk result (λ joined. length joined.1.items ≡ N.workers) }
{
    let (events, mut all) = blank.open::<N>();
    let count = book.item_count().clamp(1, tools.len());
    let desk = Desk::new(book, events);
    let seats = take_seats(runner.alloc, &mut tools, &mut all, count as u32);
    let (seats, (desk, mut tools, mut all)) = both(seats, (desk, tools, all))?;
    let seats = work_each(rt, &desk, runner, seats);
    let Locked { book, mut events } = desk.into_locked();
    book.keeps();
    let made = leave_seats(seats, &mut tools, &mut events, &mut all);
    Ok((Counted { book, made }, tools))
}

/// Does all items by several workers, in a run that N names.
fn run_all<
    P: Piece + Send,
    T: Send + Drop,
    H: Hands<P, T>,
    G: Gate,
    N: Board + Send + Sync,
    R: Threads + Wait + Sync,
>(
    rt: &R,
    runner: &ItemRunner<'_, H, G>,
    job: &Job<'_>,
    blank: Blank,
    tools: Vec<T>,
) -> Result<Worked<P, T>, NoMemory>
    requires hands { H.job runner.now.hands.now ≡ N.job }
    requires job { N.job ≡ job.now }
    requires workers { N.workers ≡ length tools.items }
    requires some { (1 ≤ N.workers) × (N.workers ≤ MOST_WORKERS) }
    requires name { blank.name ≡ N.name }
    requires parts { blank.parts ≡ N.parts }
    requires one_each { blank.parts ≡ N.workers + 1 }
    ensures roots { IfOk result (λ w. AreRootPieces P.job_of P.slot_of P.node_of P.made_of N.job w.roots.items) }
    ensures history { IfOk result (λ w. IsCompleteOf N.job w.history.items) }
    ensures workers { IfOk result (λ w. All (λ e. e.worker ≤ N.workers) w.history.items) }
    ensures made { IfOk result (λ w. w.made ≡ length w.history.items) }
    ensures tools { IfOk result (λ w. length w.tools.items ≡ N.workers) }
{
    let workers = tools.len() as u32;
    let (book, tools) = both(Book::<P, N>::new(runner.alloc, job, workers), tools)?;
    let (counted, mut tools) = join_workers(rt, runner, book, blank, tools)?;
    let Some(spare) = tools.last_mut() else {
        unreachable!()
    };
    let (finished, tools) = both(complete(runner, job, workers, counted, spare), tools)?;
    Ok(finished.with_tools(tools))
}

/// Does all items of the job by this number of workers, each on a thread of its own but one, which is on the calling
/// thread. A job of fewer items has fewer workers. If the number is 1, no lock is taken.
pub fn work_all<P: Piece + Send, T: Send + Drop, H: Hands<P, T>, G: Gate, R: Threads + Wait + Sync>(
    rt: &R,
    alloc: Global,
    job: &Job<'_>,
    workers: u32,
    hands: &H,
    gate: &G,
    mut tools: Vec<T>,
) -> Result<Worked<P, T>, NoMemory>
    requires hands { H.job hands.now ≡ job.now }
    requires workers { (1 ≤ workers) × (workers ≤ MOST_WORKERS) × (length tools.items ≡ workers) }
    ensures roots { IfOk result (λ w. AreRootPieces P.job_of P.slot_of P.node_of P.made_of job.now w.roots.items) }
    ensures history { IfOk result (λ w. IsCompleteOf job.now w.history.items) }
    ensures workers { IfOk result (λ w. All (λ e. e.worker ≤ workers) w.history.items) }
    ensures made { IfOk result (λ w. w.made ≡ length w.history.items) }
    ensures tools { IfOk result (λ w. length w.tools.items ≡ workers) }
{
    let runner = ItemRunner { alloc, hands, gate };
    if workers > 1 {
        let blank = Blank::new(u64::from(workers) + 1);
        return run_all::<P, T, H, G, Brand, R>(rt, &runner, job, blank, tools);
    }
    let finished = run_here::<P, T, H, G, Brand>(&runner, job, workers, &mut tools[0]);
    let (finished, tools) = both(finished, tools)?;
    Ok(finished.with_tools(tools))
}
