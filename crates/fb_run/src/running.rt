//! The top call.

ghost use Rattle.std.specs.Prelude.{◌≡◌, ◌≢◌, ◌<◌, ◌^◌, ◌-◌, map, string_bytes, true};
ghost use Rattle.fb_ports.specs.Causes.{Appends, AppendsPrefix, IsEmptyIfKnown, Rose, CountsFault};
ghost use Rattle.fb_exits.specs.Causes.{line_of, status_of};
ghost use Rattle.fb_exits.specs.Ends.{CountsReadFault, MayFollowReadFault};
ghost use Rattle.fb_files.specs.Moments.{moment};
ghost use Rattle.fb_run.specs.RunEndings.{EndsRight, HasReadOut, ReadsOut, RequestEnds};
ghost use Rattle.fb_run.specs.InternalCauses.{IfParse, cause_of_words};
ghost use Rattle.fb_command_line.specs.Taken.{is_taken};
ghost use Rattle.fb_request.specs.PlainRequests.{plain_request};
ghost use Rattle.fb_request.specs.Requests.{IsInRanges};
ghost use Rattle.fb_command_line.specs.Words.{request_of};

use crate::decoding::decode;
use crate::sampling::sample;
use fb_check::check;
use fb_command_line::{WordsFault, read_words};
use fb_crew::Gate;
use fb_exits::{Cause, Ended, say};
use fb_planning::plan;
use fb_ports::{Files, Sink, put_all};
use fb_predicting::predict;
use fb_request::{Request, UsageKind};
use std::alloc::Global;
use std::thread::Threads;

/// Runs the program on the words of a command line, the program's name first: reads the files that they name, writes
/// the report to `out`, and writes to `err` why it ended if the report doesn't show it.
pub fn run<F: Files, O: Sink, E: Sink, G: Gate, R: Threads + Sync>(
    rt: &R,
    alloc: Global,
    words: &[String],
    files: &mut F,
    out: &mut O,
    err: &mut E,
    gate: &G,
) -> Ended
    requires { IsEmptyIfKnown (F.asked files.old) }
    ensures status { result.status ≡ status_of result.cause }

    // By the cause: what the files held, which names were asked for, whether a read failed, and what was written.
    ensures ends { EndsRight (request_of (map string_bytes words.now))
        (moment (F.named files.old) (F.left files.old) (F.asked files.old) (F.faults files.old) (O.taken out.old))
        (moment (F.named files.new) (F.left files.new) (F.asked files.new) (F.faults files.new) (O.taken out.new)) result.cause }
    ensures at_end { HasReadOut (request_of (map string_bytes words.now)) (F.named files.old) (F.left files.new) result.cause }

    // A fault is returned only if one occurred. If the rows of the shots before a failed read can't be written, or memory
    // runs out for them, that is returned in its place.
    ensures read_fault { result.cause ≡ Cause.ReadFault → Rose (F.faults files.old) (F.faults files.new) }
    ensures read_reported { F.faults files.old < F.faults files.new → MayFollowReadFault result.cause }
    ensures write_fault { result.cause ≡ Cause.WriteFault → Rose (O.faults out.old) (O.faults out.new) }
    ensures write_reported { O.faults out.old < O.faults out.new → result.cause ≡ Cause.WriteFault }

    // A command line that is taken isn't refused as invalid.
    ensures takes { is_taken (map string_bytes words.now) ≡ true → result.cause ≢ Cause.Usage UsageKind.Parse }

    // What was written to standard error. Of an invalid command line it is the text of `clap`.
    ensures reported { result.cause ≢ Cause.Usage UsageKind.Parse
        → AppendsPrefix (E.taken err.old) (E.taken err.new) (line_of result.cause) }
    ensures reported_whole { result.cause ≢ Cause.Usage UsageKind.Parse → E.faults err.old < 2 ^ 64 - 1
        → E.faults err.new ≡ E.faults err.old → Appends (E.taken err.old) (E.taken err.new) (line_of result.cause) }
{
    let cause = run_words(rt, alloc, words, files, out, err, gate);
    say(cause, err);
    Ended {
        status: cause.status(),
        cause,
    }
}

/// Does what the words ask for, or writes to `err` what is wrong with an invalid command line.
fn run_words<F: Files, O: Sink, E: Sink, G: Gate, R: Threads + Sync>(
    rt: &R,
    alloc: Global,
    words: &[String],
    files: &mut F,
    out: &mut O,
    err: &mut E,
    gate: &G,
) -> Cause
    requires { IsEmptyIfKnown (F.asked files.old) }
    ensures ends { EndsRight (request_of (map string_bytes words.now))
        (moment (F.named files.old) (F.left files.old) (F.asked files.old) (F.faults files.old) (O.taken out.old))
        (moment (F.named files.new) (F.left files.new) (F.asked files.new) (F.faults files.new) (O.taken out.new)) result }
    ensures at_end { HasReadOut (request_of (map string_bytes words.now)) (F.named files.old) (F.left files.new) result }
    ensures takes { is_taken (map string_bytes words.now) ≡ true → result ≢ Cause.Usage UsageKind.Parse }
    ensures reads { CountsReadFault result (F.faults files.old) (F.faults files.new) }
    ensures writes { CountsFault (result ≡ Cause.WriteFault) (O.faults out.old) (O.faults out.new) }
    ensures quiet { result ≢ Cause.Usage UsageKind.Parse → (E.taken err.new ≡ E.taken err.old) × (E.faults err.new ≡ E.faults err.old) }
{
    match read_words(alloc, words) {
        Ok(request) => run_request(rt, alloc, &request, files, out, gate),
        Err(fault) => refuse_words(&fault, err),
    }
}

/// Does what the words ask for.
fn run_request<F: Files, O: Sink, G: Gate, R: Threads + Sync>(
    rt: &R,
    alloc: Global,
    request: &Request<'_>,
    files: &mut F,
    out: &mut O,
    gate: &G,
) -> Cause
    requires asked { IsEmptyIfKnown (F.asked files.old) }
    requires ranges { IsInRanges (plain_request request.now) }
    ensures ends { RequestEnds (plain_request request.now)
        (moment (F.named files.old) (F.left files.old) (F.asked files.old) (F.faults files.old) (O.taken out.old))
        (moment (F.named files.new) (F.left files.new) (F.asked files.new) (F.faults files.new) (O.taken out.new)) result }
    ensures at_end { ReadsOut (plain_request request.now) (F.named files.old) (F.left files.new) result }
    ensures reads { CountsReadFault result (F.faults files.old) (F.faults files.new) }
    ensures writes { CountsFault (result ≡ Cause.WriteFault) (O.faults out.old) (O.faults out.new) }
{
    match request {
        Request::Decode(decoding) => decode(rt, alloc, decoding, files, out, gate),
        Request::Check(checking) => check(alloc, checking, files, out),
        Request::Sample(sampling) => sample(rt, alloc, sampling, out, gate),
        Request::Plan(planning) => plan(alloc, planning, files, out),
        Request::Predict(predicting) => predict(alloc, predicting, files, out),
    }
}

/// The cause that says what is wrong with the words. For an invalid command line the text of `clap` is written to a sink,
/// whole unless the sink fails.
fn refuse_words<E: Sink>(fault: &WordsFault, err: &mut E) -> Cause
    ensures cause { result ≡ cause_of_words fault.now }
    ensures text { IfParse (λ text. AppendsPrefix (E.taken err.old) (E.taken err.new) text) fault.now }
    ensures text_whole { E.faults err.old < 2 ^ 64 - 1 → E.faults err.new ≡ E.faults err.old
        → IfParse (λ text. Appends (E.taken err.old) (E.taken err.new) text) fault.now }
    ensures quiet { result ≢ Cause.Usage UsageKind.Parse → (E.taken err.new ≡ E.taken err.old) × (E.faults err.new ≡ E.faults err.old) }
{
    match fault {
        WordsFault::Parse(text) => {
            let _ = put_all(err, text.as_bytes());
            Cause::Usage(UsageKind::Parse)
        }
        WordsFault::Format => Cause::Usage(UsageKind::Format),
        WordsFault::TwoInputs => Cause::Usage(UsageKind::TwoInputs),
        WordsFault::NoMemory => Cause::NoMemory,
    }
}
