//! The shots of a file, decoded batch by batch.

ghost use Rattle.std.specs.Prelude.{◌≡◌, ◌+◌, ◌++◌, ◌^◌, ◌<◌, ◌≤◌, [], true, length, All, Some, IfOk, OnOk, OnErr, Err};
ghost use Rattle.fb_graph.specs.Limits.{IsGraph, IsShot};
ghost use Rattle.fb_ports.specs.Causes.{Appends, AppendsPrefix, CountsFault};
ghost use Rattle.fb_shots.specs.Steps.{IsReadOut};
ghost use Rattle.fb_shots.specs.Streams.{fresh};
ghost use Rattle.fb_files.specs.Judging.{most_shots};
ghost use Rattle.fb_files.specs.InternalGathers.{EndsFrom, FirstFrom, GathersFrom};
ghost use Rattle.fb_report.specs.Texts.{rows_text};
ghost use Rattle.fb_crew.specs.Windows.{AreRows, IsHistoryOf};
ghost use Rattle.fb_book.specs.declared.limits.TheConstants.{MOST_AT_ONCE};
ghost use Rattle.fb_run.specs.Decoding.{batch_text, cause_of, events_text};
ghost use Rattle.fb_run.specs.InternalBatches.{AddsCounts, TakesBatch, batch_in};
ghost use Rattle.fb_run.specs.InternalWrites.{WritesBatches, WritesFirstBatches, counts_in, tally_with};
ghost use Rattle.fb_request.specs.PlainRequests.{plain_decoding};

use crate::busy::decode_busy;
use fb_crew::{Crew, Entry, EntryKind, Gate, Window};
use fb_exits::Cause;
use fb_files::{MOST_SHOTS, ShotsEnd, take_window};
use fb_graph::{Graph, NoMemory, Row, Shot};
use fb_ports::{Files, Outbox, RowsFault, Sink};
use fb_report::{write_row, write_trace};
use fb_request::Decoding;
use fb_shots::ShotStream;
use std::alloc::Global;
use std::thread::Threads;

/// How many rows are corrections, and how many are odd.
#[derive(Clone, Copy, Debug, PartialEq, Eq)]
pub struct RowCounts {
    pub best: u64,
    pub odd: u64,
}

/// The rows of a file's shots by their number, and how the shots ended.
#[derive(Clone, Copy, Debug, PartialEq, Eq)]
pub struct Decoded {
    pub tally: RowCounts,
    pub end: ShotsEnd,
}

/// The rows of the next shots, and how the shots of the file end, if they do after these.
#[derive(Drop)]
struct NextBatch {
    batch: Window,
    end: Option<ShotsEnd>,
}

impl RowCounts {
    /// How a decode of all shots ends.
    pub fn cause(self) -> Cause
        ensures { result ≡ cause_of (counts_in self) }
    {
        if self.odd > 0 {
            Cause::Odd
        } else {
            Cause::Done
        }
    }

    /// How many rows there are.
    pub fn rows(self) -> u64
        requires { self.best + self.odd < 2 ^ 32 }
        ensures { result ≡ self.best + self.odd }
    {
        self.best + self.odd
    }

    /// The tally with one row more.
    fn with_row(self, row: &Row) -> RowCounts
        requires best { self.best < 2 ^ 32 }
        requires odd { self.odd < 2 ^ 32 }
        ensures { result ≡ tally_with self row.now }
    {
        match row {
            Row::Best { .. } => RowCounts {
                best: self.best + 1,
                ..self
            },
            Row::Odd(_) => RowCounts {
                odd: self.odd + 1,
                ..self
            },
        }
    }
}

/// Decodes the shots of the current file, of which nothing was read yet, and writes their rows. At most the shots of one
/// window are held at a time, and their rows are written before the next ones are taken.
pub fn decode_file<F: Files, O: Sink, G: Gate, R: Threads + Sync>(
    rt: &R,
    alloc: Global,
    request: &Decoding<'_>,
    graph: &Graph,
    crew: &mut Crew<'_>,
    files: &mut F,
    out: &mut O,
    gate: &G,
) -> Result<Decoded, RowsFault>
    requires graph { crew.old.graph ≡ graph.now }
    requires workers { crew.old.workers ≡ request.now.workers }
    requires some { 1 ≤ request.now.window }
    requires few { request.now.window ≤ MOST_AT_ONCE }
    ensures all { IfOk result (λ d. WritesBatches (λ shots. GathersFrom (F.left files.old) request.now.format graph.now (F.left files.new) shots d.end)
        (plain_decoding request.now) graph.now crew.old.plan (O.taken out.old) (O.taken out.new) d.tally) }
    ensures first { OnErr result (WritesFirstBatches (FirstFrom (F.left files.old) request.now.format graph.now)
        (EndsFrom (F.left files.old) request.now.format graph.now (F.left files.new) (F.faults files.old) (F.faults files.new))
        (plain_decoding request.now) graph.now crew.old.plan (O.taken out.old) (O.taken out.new)) }
    ensures few { IfOk result (λ d. d.tally.best + d.tally.odd < 2 ^ 32) }
    ensures at_end { IfOk result (λ d. d.end ≡ ShotsEnd.End → IsReadOut (F.left files.old) (F.left files.new)) }
    ensures asks { F.asked files.new ≡ F.asked files.old }
    ensures reads { IfOk result (λ d. CountsFault (d.end ≡ ShotsEnd.ReadFault) (F.faults files.old) (F.faults files.new)) }
    ensures never_falls { F.faults files.old ≤ F.faults files.new }
    ensures writes { CountsFault (result ≡ Err RowsFault.WriteFault) (O.faults out.old) (O.faults out.new) }
{
    let Ok(mut stream) = ShotStream::new(alloc, request.format, graph, MOST_SHOTS) else {
        return Err(RowsFault::NoMemory);
    };
    let mut outbox = Outbox::new(alloc);
    decode_stream(
        rt,
        alloc,
        request,
        crew,
        files,
        &mut stream,
        &mut outbox,
        out,
        gate,
    )
}

/// Decodes the shots of a stream that has read nothing yet, by an outbox in which nothing waits.
fn decode_stream<F: Files, O: Sink, G: Gate, R: Threads + Sync>(
    rt: &R,
    alloc: Global,
    request: &Decoding<'_>,
    crew: &mut Crew<'_>,
    files: &mut F,
    stream: &mut ShotStream<'_>,
    outbox: &mut Outbox,
    out: &mut O,
    gate: &G,
) -> Result<Decoded, RowsFault>
    requires fresh { stream.old ≡ fresh stream.old.format stream.old.graph most_shots }
    requires graph { crew.old.graph ≡ stream.old.graph }
    requires workers { crew.old.workers ≡ request.now.workers }
    requires some { 1 ≤ request.now.window }
    requires few { request.now.window ≤ MOST_AT_ONCE }
    requires empty { outbox.old.text ≡ [] }
    ensures all { IfOk result (λ d. WritesBatches (λ shots. GathersFrom (F.left files.old) stream.old.format stream.old.graph (F.left files.new) shots d.end)
        (plain_decoding request.now) stream.old.graph crew.old.plan (O.taken out.old) (O.taken out.new) d.tally) }
    ensures first { OnErr result (WritesFirstBatches (FirstFrom (F.left files.old) stream.old.format stream.old.graph)
        (EndsFrom (F.left files.old) stream.old.format stream.old.graph (F.left files.new) (F.faults files.old) (F.faults files.new))
        (plain_decoding request.now) stream.old.graph crew.old.plan (O.taken out.old) (O.taken out.new)) }
    ensures few { IfOk result (λ d. d.tally.best + d.tally.odd < 2 ^ 32) }
    ensures at_end { IfOk result (λ d. d.end ≡ ShotsEnd.End → IsReadOut (F.left files.old) (F.left files.new)) }
    ensures asks { F.asked files.new ≡ F.asked files.old }
    ensures reads { IfOk result (λ d. CountsFault (d.end ≡ ShotsEnd.ReadFault) (F.faults files.old) (F.faults files.new)) }
    ensures never_falls { F.faults files.old ≤ F.faults files.new }
    ensures writes { CountsFault (result ≡ Err RowsFault.WriteFault) (O.faults out.old) (O.faults out.new) }
{
    let mut tally = RowCounts { best: 0, odd: 0 };
    loop {
        let Ok(next) = next_batch(rt, alloc, request, crew, files, stream, gate) else {
            return Err(RowsFault::NoMemory);
        };
        tally = write_batch(&next.batch, tally, request.trace, outbox, out)?;
        if let Some(end) = next.end {
            return Ok(Decoded { tally, end });
        }
    }
}

/// Takes the next shots of a stream, and solves them.
fn next_batch<F: Files, G: Gate, R: Threads + Sync>(
    rt: &R,
    alloc: Global,
    request: &Decoding<'_>,
    crew: &mut Crew<'_>,
    files: &mut F,
    stream: &mut ShotStream<'_>,
    gate: &G,
) -> Result<NextBatch, NoMemory>
    requires graph { crew.old.graph ≡ stream.old.graph }
    requires workers { crew.old.workers ≡ request.now.workers }
    requires few { request.now.window ≤ MOST_AT_ONCE }
    ensures batch { IfOk result (λ n. TakesBatch (plain_decoding request.now) crew.old.plan stream.old stream.new
        (F.left files.old) (F.left files.new) (batch_in n.batch) n.end) }
    ensures same { crew.new ≡ crew.old }
    ensures asks { F.asked files.new ≡ F.asked files.old }
    ensures reads { IfOk result (λ n. CountsFault (n.end ≡ Some ShotsEnd.ReadFault) (F.faults files.old) (F.faults files.new)) }
    ensures never_falls { F.faults files.old ≤ F.faults files.new }
{
    let taken = take_window(alloc, files, stream, request.window as usize)?;
    let batch = solve_batch(rt, alloc, crew, request.trace, taken.shots, gate)?;
    Ok(NextBatch {
        batch,
        end: taken.end,
    })
}

/// The rows of a batch of shots, and if the history is wanted, how they were made. If it isn't, shots without a defect
/// and without an edge of negative weight need no worker.
fn solve_batch<G: Gate, R: Threads + Sync>(
    rt: &R,
    alloc: Global,
    crew: &mut Crew<'_>,
    trace: bool,
    shots: Vec<Shot>,
    gate: &G,
) -> Result<Window, NoMemory>
    requires shots { All (IsShot crew.old.graph) shots.items }
    requires few { length shots.items ≤ MOST_AT_ONCE }
    ensures rows { IfOk result (λ w. AreRows crew.old.graph shots.items w.rows.items) }
    ensures history { trace ≡ true → IfOk result (λ w. IsHistoryOf crew.old.plan crew.old.workers w.rows.items w.history.items) }
    ensures same { crew.new ≡ crew.old }
    ensures graph { IsGraph crew.old.graph }
{
    crew.graph().limits();
    if trace {
        return crew.decode_window(rt, alloc, shots.as_slice(), gate);
    }
    let rows = decode_busy(rt, alloc, crew, shots, gate)?;
    Ok(Window {
        rows,
        history: Vec::new(alloc),
    })
}

/// Writes the rows of a batch, which follow those that are counted, and its events if they are wanted. Returns the count
/// with these rows.
fn write_batch<O: Sink>(
    batch: &Window,
    tally: RowCounts,
    trace: bool,
    outbox: &mut Outbox,
    out: &mut O,
) -> Result<RowCounts, RowsFault>
    requires few { tally.best + tally.odd + length batch.now.rows.items < 2 ^ 32 }
    requires slots { trace ≡ true → All (λ e. e.slot < length batch.now.rows.items) batch.now.history.items }
    requires empty { outbox.old.text ≡ [] }
    ensures all { OnOk result (Appends (O.taken out.old) (O.taken out.new)
        (batch_text trace (tally.best + tally.odd) (batch_in batch.now))) }
    ensures prefix { OnErr result (AppendsPrefix (O.taken out.old) (O.taken out.new)
        (batch_text trace (tally.best + tally.odd) (batch_in batch.now))) }
    ensures counts { IfOk result (λ more. AddsCounts tally more batch.now.rows.items) }
    ensures emptied { OnOk result (outbox.new.text ≡ []) }
    ensures writes { CountsFault (result ≡ Err RowsFault.WriteFault) (O.faults out.old) (O.faults out.new) }
{
    let Ok(more) = add_batch(outbox, tally, trace, batch) else {
        return Err(RowsFault::NoMemory);
    };
    let Ok(()) = outbox.flush(out) else {
        return Err(RowsFault::WriteFault);
    };
    Ok(more)
}

/// Adds the rows of a batch to the outbox, which follow those that are counted, and its events if they are wanted.
/// Returns the count with these rows.
fn add_batch(
    outbox: &mut Outbox,
    tally: RowCounts,
    trace: bool,
    batch: &Window,
) -> Result<RowCounts, NoMemory>
    requires few { tally.best + tally.odd + length batch.now.rows.items < 2 ^ 32 }
    requires slots { trace ≡ true → All (λ e. e.slot < length batch.now.rows.items) batch.now.history.items }
    ensures text { IfOk result (λ more. outbox.new.text
        ≡ outbox.old.text ++ batch_text trace (tally.best + tally.odd) (batch_in batch.now)) }
    ensures counts { IfOk result (λ more. AddsCounts tally more batch.now.rows.items) }
{
    let first = tally.rows() as u32;
    let tally = add_rows(outbox, tally, batch.rows.as_slice())?;
    if trace {
        add_events(outbox, first, batch.history.as_slice())?;
    }
    Ok(tally)
}

/// Adds rows to the outbox, which follow those that are counted. Returns the count with these.
fn add_rows(outbox: &mut Outbox, tally: RowCounts, rows: &[Row]) -> Result<RowCounts, NoMemory>
    requires few { tally.best + tally.odd + length rows.now < 2 ^ 32 }
    ensures text { IfOk result (λ more. outbox.new.text ≡ outbox.old.text ++ rows_text (tally.best + tally.odd) rows.now) }
    ensures counts { IfOk result (λ more. AddsCounts tally more rows.now) }
{
    let mut tally = tally;
    for row in rows {
        let Ok(()) = write_row(outbox, tally.rows() as u32, row) else {
            return Err(NoMemory);
        };
        tally = tally.with_row(row);
    }
    Ok(tally)
}

/// Adds the events of a batch whose first shot has this number to the outbox.
fn add_events(outbox: &mut Outbox, first: u32, history: &[Entry]) -> Result<(), NoMemory>
    requires { All (λ e. first + e.slot < 2 ^ 32) history.now }
    ensures { OnOk result (outbox.new.text ≡ outbox.old.text ++ events_text true first history.now) }
{
    for entry in history {
        let gave = matches!(entry.kind, EntryKind::Gave);
        let Ok(()) = write_trace(outbox, gave, entry.worker, first + entry.slot, entry.node) else {
            return Err(NoMemory);
        };
    }
    Ok(())
}
