//! All items of a job on the calling thread.

ghost use Rattle.std.specs.Prelude.{◌≡◌, ◌+◌, ◌≤◌, true, length, All, IfOk, OnOk, Ok};
ghost use Rattle.fb_book.specs.declared.entries.EntryKind.TheVariants.{Gave};
ghost use Rattle.fb_book.specs.Board.{Lets, is_finished};
ghost use Rattle.fb_book.specs.Books.{AreRootPieces, IsPieceAt, course_of, holds, place_of};
ghost use Rattle.fb_hands.specs.Jobs.{IsCompleteOf};
ghost use Rattle.fb_desk.specs.InternalQuiet.{IsQuiet};

use crate::finished::Finished;
use crate::items::item_of;
use fb_book::{Board, Book, Claim, Permit, Piece, complete_history};
use fb_graph::NoMemory;
use fb_half::both::both;
use fb_hands::{Gate, Hands, ItemRunner, OpenGate};
use fb_plan::Job;
use std::alloc::Global;
use std::marker::Brand;

/// Whether a turn did an item, or found none that can be taken.
#[derive(Clone, Copy)]
pub(crate) enum Progress {
    Done,
    NoItem,
}

/// Posts the piece of an item that the permit's worker holds, if it was made.
fn give<P: Piece, N: Board>(
    book: &mut Book<P, N>,
    permit: Permit<N>,
    piece: Result<P, NoMemory>,
) -> Result<Progress, NoMemory>
    requires piece { IfOk piece (IsPieceAt P.job_of P.slot_of P.node_of P.made_of N.job
        (place_of N.job permit.slot permit.node)) }
    requires held { holds N.job book.old.0 permit.worker permit.slot permit.node ≡ true }
    ensures done { IfOk result (λ turn. turn ≡ Progress.Done) }
    ensures gave { OnOk result (Lets (course_of N.job book.old.0) (course_of N.job book.new.0)
        Gave permit.worker permit.slot permit.node) }
{
    let Ok(()) = book.post(permit, piece?) else {
        unreachable!()
    };
    Ok(Progress::Done)
}

/// Does the next item that can be taken, if there is one.
pub(crate) fn next_item<P: Piece, T, H: Hands<P, T>, G: Gate, N: Board>(
    runner: &ItemRunner<'_, H, G>,
    book: &mut Book<P, N>,
    worker: u32,
    tools: &mut T,
) -> Result<Progress, NoMemory>
    requires job { H.job runner.now.hands.now ≡ N.job }
    requires worker { worker ≤ N.workers }
    ensures longer { result ≡ Ok Progress.Done → length book.new.0 ≡ length book.old.0 + 2 }
    ensures quiet { result ≡ Ok Progress.Done → IsQuiet (course_of N.job book.old.0) → IsQuiet (course_of N.job book.new.0) }
    ensures finished { result ≡ Ok Progress.NoItem → IsQuiet (course_of N.job book.old.0)
        → is_finished (course_of N.job book.new.0) ≡ true }
    ensures same { result ≡ Ok Progress.NoItem → book.new ≡ book.old }
{
    book.keeps();
    match book.claim(worker) {
        Claim::Unit(permit) => {
            let piece = runner.unit::<P, T, N>(tools, item_of(&permit));
            give(book, permit, piece)
        }
        Claim::Fusion(permit, left, right) => {
            let piece = runner.fusion::<P, T, N>(tools, item_of(&permit), left, right);
            give(book, permit, piece)
        }
        Claim::NotYet => Ok(Progress::NoItem),
        Claim::Over => Ok(Progress::NoItem),
    }
}

/// Does items as this worker until none can be taken. Returns how many events it has made.
pub(crate) fn drain<P: Piece, T, H: Hands<P, T>, G: Gate, N: Board>(
    runner: &ItemRunner<'_, H, G>,
    book: &mut Book<P, N>,
    worker: u32,
    tools: &mut T,
) -> Result<u64, NoMemory>
    requires job { H.job runner.now.hands.now ≡ N.job }
    requires worker { worker ≤ N.workers }
    ensures finished { OnOk result (IsQuiet (course_of N.job book.old.0) → is_finished (course_of N.job book.new.0) ≡ true) }
    ensures made { IfOk result (λ made. length book.new.0 ≡ length book.old.0 + made) }
{
    let mut made = 0;
    loop {
        let Progress::Done = next_item(runner, book, worker, tools)? else {
            return Ok(made);
        };
        book.keeps();
        made += 2;
    }
}

/// The roots and the history of a book whose items are all given or used, with the number of its entries.
pub(crate) fn finish<P: Piece, N: Board>(book: Book<P, N>, made: u64) -> Finished<P>
    requires finished { is_finished (course_of N.job book.0) ≡ true }
    requires made { length book.0 ≡ made }
    ensures roots { AreRootPieces P.job_of P.slot_of P.node_of P.made_of N.job result.roots.items }
    ensures history { IsCompleteOf N.job result.history.items }
    ensures workers { All (λ e. e.worker ≤ N.workers) result.history.items }
    ensures made { result.made ≡ length result.history.items }
{
    book.keeps();
    complete_history();
    let (roots, history) = book.take_roots();
    Finished {
        roots,
        history,
        made,
    }
}

/// Does all items as worker 0, in a run of this number of workers.
pub(crate) fn run_here<P: Piece, T, H: Hands<P, T>, G: Gate, N: Board>(
    runner: &ItemRunner<'_, H, G>,
    job: &Job<'_>,
    workers: u32,
    tools: &mut T,
) -> Result<Finished<P>, NoMemory>
    requires hands { H.job runner.now.hands.now ≡ N.job }
    requires job { N.job ≡ job.now }
    requires workers { N.workers ≡ workers }
    ensures roots { IfOk result (λ w. AreRootPieces P.job_of P.slot_of P.node_of P.made_of N.job w.roots.items) }
    ensures history { IfOk result (λ w. IsCompleteOf N.job w.history.items) }
    ensures workers { IfOk result (λ w. All (λ e. e.worker ≤ N.workers) w.history.items) }
    ensures made { IfOk result (λ w. w.made ≡ length w.history.items) }
{
    let mut book: Book<P, N> = Book::new(runner.alloc, job, workers)?;
    let (made, book) = both(drain(runner, &mut book, 0, tools), book)?;
    Ok(finish(book, made))
}

/// Does all items of the job on the calling thread, as worker 0.
pub fn work_here<P: Piece, T, H: Hands<P, T>>(
    alloc: Global,
    job: &Job<'_>,
    hands: &H,
    tools: &mut T,
) -> Result<Finished<P>, NoMemory>
    requires hands { H.job hands.now ≡ job.now }
    ensures roots { IfOk result (λ w. AreRootPieces P.job_of P.slot_of P.node_of P.made_of job.now w.roots.items) }
    ensures history { IfOk result (λ w. IsCompleteOf job.now w.history.items) }
    ensures workers { IfOk result (λ w. All (λ e. e.worker ≡ 0) w.history.items) }
    ensures made { IfOk result (λ w. w.made ≡ length w.history.items) }
{
    let runner = ItemRunner {
        alloc,
        hands,
        gate: &OpenGate,
    };
    run_here::<P, T, H, OpenGate, Brand>(&runner, job, 0, tools)
}
