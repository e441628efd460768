//! The command `check`: judges the rows of a report.

ghost use Rattle.std.specs.Prelude.{◌≡◌, ◌^◌, ◌<◌, ◌≤◌, [], length, All, IfOk, OnErr, Err, if◌then◌else◌};
ghost use Rattle.fb_graph.specs.Limits.{IsShot};
ghost use Rattle.fb_ports.specs.Causes.{HasRoom, IsEmptyIfKnown, CountsFault};
ghost use Rattle.fb_shots.specs.Steps.{IsReadOut};
ghost use Rattle.fb_shots.specs.Streams.{fresh};
ghost use Rattle.fb_verify.specs.Verdicts.{HasPositiveValues};
ghost use Rattle.fb_check.specs.CheckEndings.{CheckEnds, ChecksOn, ReportEnds};
ghost use Rattle.fb_files.specs.Judging.{IsReadOutIfNamed, most_shots};
ghost use Rattle.fb_exits.specs.Ends.{CountsReadFault, IsReadToItsEnd};
ghost use Rattle.fb_check.specs.InternalJudges.{EndsCheck, JudgesAll, JudgesFirst, JudgesInto, JudgesNext};
ghost use Rattle.fb_files.specs.InternalGathers.{FirstFrom, GathersFrom};
ghost use Rattle.fb_files.specs.Moments.{moment};
ghost use Rattle.fb_request.specs.PlainRequests.{plain_checking};

use crate::check_text::{put_check_head, put_check_last, put_verdict};
use fb_exits::{Cause, Refusal, cause_of_report, graph_or_cause};
use fb_files::{MOST_SHOTS, ShotsEnd, read_report_file};
use fb_graph::{Graph, NoMemory, Row, Shot};
use fb_ports::{Files, Outbox, RowsFault, Sink};
use fb_request::{Checking, Format};
use fb_shots::{ShotStream, Step};
use fb_verify::Judge;
use std::alloc::Global;

/// How many shots were taken, how many rows are bad, and how the shots ended.
#[derive(Clone, Copy, Debug, PartialEq, Eq)]
pub struct Judged {
    pub shots: u64,
    pub bad: u64,
    pub end: ShotsEnd,
}

/// Checks the report that is named: the graph is read and judged, then the report; then the head is written, and the
/// line of each row while its shot is taken.
pub fn check<F: Files, O: Sink>(
    alloc: Global,
    request: &Checking<'_>,
    files: &mut F,
    out: &mut O,
) -> Cause
    requires { IsEmptyIfKnown (F.asked files.old) }
    ensures ends { CheckEnds (plain_checking request.now)
        (moment (F.named files.old) (F.left files.old) (F.asked files.old) (F.faults files.old) (O.taken out.old))
        (moment (F.named files.new) (F.left files.new) (F.asked files.new) (F.faults files.new) (O.taken out.new)) result }
    ensures at_end { IsReadToItsEnd result → IsReadOutIfNamed (F.named files.old) (F.left files.new) }
    ensures reads { CountsReadFault result (F.faults files.old) (F.faults files.new) }
    ensures writes { CountsFault (result ≡ Cause.WriteFault) (O.faults out.old) (O.faults out.new) }
{
    match graph_or_cause(alloc, files, request.graph) {
        Ok(graph) => check_report(alloc, request, &graph, files, out),
        Err(cause) => cause,
    }
}

/// Checks the report that is named, for a graph.
fn check_report<F: Files, O: Sink>(
    alloc: Global,
    request: &Checking<'_>,
    graph: &Graph,
    files: &mut F,
    out: &mut O,
) -> Cause
    requires { HasRoom (F.asked files.old) 15 }
    ensures ends { ReportEnds (plain_checking request.now) graph.now
        (moment (F.named files.old) (F.left files.old) (F.asked files.old) (F.faults files.old) (O.taken out.old))
        (moment (F.named files.new) (F.left files.new) (F.asked files.new) (F.faults files.new) (O.taken out.new)) result }
    ensures at_end { IsReadToItsEnd result → IsReadOutIfNamed (F.named files.old) (F.left files.new) }
    ensures reads { CountsReadFault result (F.faults files.old) (F.faults files.new) }
    ensures writes { CountsFault (result ≡ Cause.WriteFault) (O.faults out.old) (O.faults out.new) }
{
    match read_report_file(alloc, files, request.report) {
        Ok(report) => check_rows(alloc, request, graph, report.rows.as_slice(), files, out),
        Err(fault) => cause_of_report(fault),
    }
}

/// Checks rows by the shots of the file that is named, for a graph.
fn check_rows<F: Files, O: Sink>(
    alloc: Global,
    request: &Checking<'_>,
    graph: &Graph,
    rows: &[Row],
    files: &mut F,
    out: &mut O,
) -> Cause
    requires room { HasRoom (F.asked files.old) 16 }
    requires values { All HasPositiveValues rows.now }
    requires few { length rows.now < 2 ^ 32 }
    ensures ends { ChecksOn (plain_checking request.now) graph.now rows.now
        (moment (F.named files.old) (F.left files.old) (F.asked files.old) (F.faults files.old) (O.taken out.old))
        (moment (F.named files.new) (F.left files.new) (F.asked files.new) (F.faults files.new) (O.taken out.new)) result }
    ensures at_end { IsReadToItsEnd result → IsReadOutIfNamed (F.named files.old) (F.left files.new) }
    ensures reads { CountsReadFault result (F.faults files.old) (F.faults files.new) }
    ensures writes { CountsFault (result ≡ Cause.WriteFault) (O.faults out.old) (O.faults out.new) }
{
    let Ok(()) = put_check_head(out) else {
        return Cause::WriteFault;
    };
    let Ok(name) = String::from_str(alloc, request.shots) else {
        return Cause::NoMemory;
    };
    let Ok(()) = files.open_file(name) else {
        return Cause::ReadFault;
    };
    match judge_file(alloc, request.format, graph, rows, files, out) {
        Ok(judged) => end_check(judged.end, rows.len() as u64, judged.shots, judged.bad, out),
        Err(RowsFault::WriteFault) => Cause::WriteFault,
        Err(RowsFault::NoMemory) => Cause::NoMemory,
    }
}

/// Ends the text of a check: with its last line if the shots were read to their end.
fn end_check<O: Sink>(end: ShotsEnd, rows: u64, shots: u64, bad: u64, out: &mut O) -> Cause
    ensures end { EndsCheck end rows shots bad (O.taken out.old) (O.taken out.new) result }
    ensures writes { CountsFault (result ≡ Cause.WriteFault) (O.faults out.old) (O.faults out.new) }
{
    match end {
        ShotsEnd::End => {
            let Ok(()) = put_check_last(out, rows, shots, bad) else {
                return Cause::WriteFault;
            };
            if bad == 0 && rows == shots {
                Cause::Done
            } else {
                Cause::Bad(bad)
            }
        }
        ShotsEnd::Refused(fault) => Cause::Refused(Refusal::Shot(fault)),
        ShotsEnd::ReadFault => Cause::ReadFault,
    }
}

/// Judges rows by the shots of the current file, of which nothing was read yet, and writes their lines.
fn judge_file<F: Files, O: Sink>(
    alloc: Global,
    format: Format,
    graph: &Graph,
    rows: &[Row],
    files: &mut F,
    out: &mut O,
) -> Result<Judged, RowsFault>
    requires { All HasPositiveValues rows.now }
    ensures all { IfOk result (λ j. JudgesAll (λ shots. GathersFrom (F.left files.old) format graph.now (F.left files.new) shots j.end)
        graph.now rows.now (O.taken out.old) (O.taken out.new) j) }
    ensures first { OnErr result (JudgesFirst (FirstFrom (F.left files.old) format graph.now)
        graph.now rows.now (O.taken out.old) (O.taken out.new)) }
    ensures at_end { IfOk result (λ j. j.end ≡ ShotsEnd.End → IsReadOut (F.left files.old) (F.left files.new)) }
    ensures asks { F.asked files.new ≡ F.asked files.old }
    ensures reads { IfOk result (λ j. CountsFault (j.end ≡ ShotsEnd.ReadFault) (F.faults files.old) (F.faults files.new)) }
    ensures never_falls { F.faults files.old ≤ F.faults files.new }
    ensures unread { result ≡ Err RowsFault.NoMemory → F.faults files.new ≡ F.faults files.old }
    ensures writes { CountsFault (result ≡ Err RowsFault.WriteFault) (O.faults out.old) (O.faults out.new) }
{
    let Ok(mut stream) = ShotStream::new(alloc, format, graph, MOST_SHOTS) else {
        return Err(RowsFault::NoMemory);
    };
    judge(alloc, graph, rows, files, &mut stream, out)
}

/// Judges rows by the shots of a stream that has read nothing yet, and writes their lines.
fn judge<F: Files, O: Sink>(
    alloc: Global,
    graph: &Graph,
    rows: &[Row],
    files: &mut F,
    stream: &mut ShotStream<'_>,
    out: &mut O,
) -> Result<Judged, RowsFault>
    requires fresh { stream.old ≡ fresh stream.old.format stream.old.graph most_shots }
    requires graph { stream.old.graph ≡ graph.now }
    requires values { All HasPositiveValues rows.now }
    ensures all { IfOk result (λ j. JudgesAll (λ shots. GathersFrom (F.left files.old) stream.old.format stream.old.graph (F.left files.new) shots j.end)
        graph.now rows.now (O.taken out.old) (O.taken out.new) j) }
    ensures first { OnErr result (JudgesFirst (FirstFrom (F.left files.old) stream.old.format stream.old.graph)
        graph.now rows.now (O.taken out.old) (O.taken out.new)) }
    ensures at_end { IfOk result (λ j. j.end ≡ ShotsEnd.End → IsReadOut (F.left files.old) (F.left files.new)) }
    ensures asks { F.asked files.new ≡ F.asked files.old }
    ensures reads { IfOk result (λ j. CountsFault (j.end ≡ ShotsEnd.ReadFault) (F.faults files.old) (F.faults files.new)) }
    ensures never_falls { F.faults files.old ≤ F.faults files.new }
    ensures unread { result ≡ Err RowsFault.NoMemory → F.faults files.new ≡ F.faults files.old }
    ensures writes { CountsFault (result ≡ Err RowsFault.WriteFault) (O.faults out.old) (O.faults out.new) }
{
    let mut outbox = Outbox::new(alloc);
    let mut judge = Judge::new(graph);
    let judged = judge_into(alloc, &mut judge, rows, files, stream, &mut outbox, out)?;
    let Ok(()) = outbox.flush(out) else {
        return Err(RowsFault::WriteFault);
    };
    Ok(judged)
}

/// Judges rows by the shots of a stream that has read nothing yet. Lines wait in the outbox.
fn judge_into<F: Files, O: Sink>(
    alloc: Global,
    judge: &mut Judge<'_>,
    rows: &[Row],
    files: &mut F,
    stream: &mut ShotStream<'_>,
    outbox: &mut Outbox,
    out: &mut O,
) -> Result<Judged, RowsFault>
    requires fresh { stream.old ≡ fresh stream.old.format stream.old.graph most_shots }
    requires graph { stream.old.graph ≡ judge.old }
    requires values { All HasPositiveValues rows.now }
    requires empty { outbox.old.text ≡ [] }
    ensures all { IfOk result (λ j. JudgesInto (λ shots. GathersFrom (F.left files.old) stream.old.format stream.old.graph (F.left files.new) shots j.end)
        judge.old rows.now (O.taken out.old) (O.taken out.new) outbox.new.text j) }
    ensures first { OnErr result (JudgesFirst (FirstFrom (F.left files.old) stream.old.format stream.old.graph)
        judge.old rows.now (O.taken out.old) (O.taken out.new)) }
    ensures at_end { IfOk result (λ j. j.end ≡ ShotsEnd.End → IsReadOut (F.left files.old) (F.left files.new)) }
    ensures asks { F.asked files.new ≡ F.asked files.old }
    ensures reads { IfOk result (λ j. CountsFault (j.end ≡ ShotsEnd.ReadFault) (F.faults files.old) (F.faults files.new)) }
    ensures never_falls { F.faults files.old ≤ F.faults files.new }
    ensures unread { OnErr result (F.faults files.new ≡ F.faults files.old) }
    ensures writes { CountsFault (result ≡ Err RowsFault.WriteFault) (O.faults out.old) (O.faults out.new) }
{
    let mut shots: u64 = 0;
    let mut bad: u64 = 0;
    loop {
        let Ok(step) = stream.next_shot(files) else {
            return Err(RowsFault::NoMemory);
        };
        match step {
            Step::Shot(shot) => {
                let Ok(is_bad) = judge_next(alloc, judge, rows, shots, &shot, outbox) else {
                    return Err(RowsFault::NoMemory);
                };
                bad += one_if(is_bad);
                shots += 1;
                let Ok(()) = outbox.flush_if_full(out) else {
                    return Err(RowsFault::WriteFault);
                };
            }
            Step::End => {
                return Ok(Judged {
                    shots,
                    bad,
                    end: ShotsEnd::End,
                });
            }
            Step::Refused(fault) => {
                return Ok(Judged {
                    shots,
                    bad,
                    end: ShotsEnd::Refused(fault),
                });
            }
            Step::ReadFault => {
                return Ok(Judged {
                    shots,
                    bad,
                    end: ShotsEnd::ReadFault,
                });
            }
        }
    }
}

fn one_if(counts: bool) -> u64
    ensures { result ≡ (if counts then 1 else 0) }
{
    if counts { 1 } else { 0 }
}

/// Adds the line of shot `k` to the outbox, if it has a row. Whether the row is bad.
fn judge_next(
    alloc: Global,
    judge: &mut Judge<'_>,
    rows: &[Row],
    k: u64,
    shot: &Shot,
    outbox: &mut Outbox,
) -> Result<bool, NoMemory>
    requires shot { IsShot judge.old shot.now }
    requires values { All HasPositiveValues rows.now }
    requires few { k < 2 ^ 32 }
    ensures line { IfOk result (JudgesNext judge.old rows.now k shot.now outbox.old.text outbox.new.text) }
    ensures same { judge.new ≡ judge.old }
{
    if k >= rows.len() as u64 {
        return Ok(false);
    }
    let row = &rows[k as usize];
    let verdict = judge.check_row(alloc, shot, row)?;
    let Ok(()) = put_verdict(outbox, k as u32, verdict) else {
        return Err(NoMemory);
    };
    Ok(verdict.is_bad())
}
