//! What the words of a command line ask for.

ghost use Rattle.std.specs.Prelude.{◌≡◌, ◌≢◌, ◌<◌, ◌^◌, true, codes, map, string_bytes, IfOk, IfErr, IfSome};
ghost use Rattle.clap.specs.Words.{found_of, kind_of, one_of, rows_of, subcommand_rows_of, takes};
ghost use Rattle.fb_command_line.specs.Command.{fusion_app};
ghost use Rattle.fb_request.specs.declared.usage.UsageKind.{UsageKind};
ghost use Rattle.fb_command_line.specs.InternalOptions.{HasDecodeOptions, HasNumberIfGiven, HasOptions, HasPlanOptions, HasSampleOptions, WritesBelow};
ghost use Rattle.fb_request.specs.Ranges as ranges;
ghost use Rattle.fb_command_line.specs.Faults.{IsFaultOf, usage_of};
ghost use Rattle.fb_request.specs.PlainRequests.{plain_planning, plain_request, plain_sampling};
ghost use Rattle.fb_request.specs.Requests.{IsInRanges};
ghost use Rattle.fb_command_line.specs.Words.{accepted_format, checking_of, coding_of, command_request, decoding_of, request_of, format_of, has_two_inputs, is_command, number_of, option_of, planning_of, predicting_of, sampling_of, trace_of, window_of, workers_of};

use crate::command::fusion;
use clap::ArgMatches;
use clap::error::{Error, ErrorKind};
use fb_request::{Checking, Coding, Decoding, Format, Planning, Predicting, Request, Sampling};
use std::alloc::Global;

/// Why a command line is refused.
#[derive(Debug, Drop)]
pub enum WordsFault {
    /// They are no command with its options, or they ask for help or the version. The text is for the user, of whole lines.
    Parse(String),
    /// `--format` is none of the six, or `--to` none of the five.
    Format,
    /// More than one name is that of standard input.
    TwoInputs,
    /// Memory ran out.
    NoMemory,
}

/// Reads the words of a command line, the program's name first.
pub fn read_words<'a>(alloc: Global, words: &'a [String]) -> Result<Request<'a>, WordsFault>
    ensures request { IfOk result (λ e. request_of (map string_bytes words.entry.now) ≡ Ok (plain_request e)) }
    ensures ranges { IfOk result (λ e. IsInRanges (plain_request e)) }
    ensures fault { IfErr result (IsFaultOf (request_of (map string_bytes words.entry.now))) }

    // Words that `clap` takes aren't refused as a whole.
    ensures takes { takes fusion_app (map string_bytes words.entry.now) ≡ true
        → IfErr result (λ f. usage_of f ≢ Some UsageKind.Parse) }
{
    match parse(alloc, words) {
        Ok(matches) => read_request(&matches),
        Err(fault) => Err(fault),
    }
}

/// What `clap` makes of the words.
fn parse<'a>(alloc: Global, words: &'a [String]) -> Result<ArgMatches<'a>, WordsFault>
    ensures command { IfOk result (λ m. is_command (subcommand_rows_of m) ≡ true) }
    ensures options { IfOk result (λ m. HasOptions (subcommand_rows_of m)) }
    ensures request { IfOk result (λ m. request_of (map string_bytes words.entry.now)
        ≡ command_request (subcommand_rows_of m)) }
    ensures fault { IfErr result (IsFaultOf (request_of (map string_bytes words.entry.now))) }
    ensures takes { takes fusion_app (map string_bytes words.entry.now) ≡ true
        → IfErr result (λ f. usage_of f ≢ Some UsageKind.Parse) }
{
    let Ok(command) = fusion(alloc) else {
        return Err(WordsFault::NoMemory);
    };
    match command.try_get_matches_from(words) {
        Ok(matches) => Ok(matches),
        Err(error) => Err(refusal(alloc, &error)),
    }
}

/// The request of the command that was parsed.
fn read_request<'a>(matches: &ArgMatches<'a>) -> Result<Request<'a>, WordsFault>
    requires command { is_command (subcommand_rows_of matches.now) ≡ true }
    requires options { HasOptions (subcommand_rows_of matches.now) }
    ensures request { IfOk result (λ e. command_request (subcommand_rows_of matches.now) ≡ Ok (plain_request e)) }
    ensures fault { IfErr result (IsFaultOf (command_request (subcommand_rows_of matches.now))) }
    ensures parsed { IfErr result (λ f. usage_of f ≢ Some UsageKind.Parse) }
{
    match matches.subcommand() {
        Some(("decode", options)) => read_decoding(options),
        Some(("check", options)) => read_checking(options),
        Some(("sample", options)) => Ok(Request::Sample(read_sampling(options))),
        Some(("plan", options)) => Ok(Request::Plan(read_planning(options))),
        Some(("predict", options)) => read_predicting(options),
        _ => unreachable!(),
    }
}

/// The request of the command `decode` with these options.
fn read_decoding<'a>(options: &ArgMatches<'a>) -> Result<Request<'a>, WordsFault>
    requires { HasDecodeOptions (rows_of (found_of options.now)) }
    ensures request { IfOk result (λ e. decoding_of (rows_of (found_of options.now)) ≡ Ok (plain_request e)) }
    ensures fault { IfErr result (IsFaultOf (decoding_of (rows_of (found_of options.now)))) }
    ensures parsed { IfErr result (λ f. usage_of f ≢ Some UsageKind.Parse) }
{
    let graph = option(options, "graph");
    let plan = options.get_str("plan");
    let shots = option(options, "shots");
    let names = [graph, plan.unwrap_or(""), shots];
    match accepted_format(option(options, "format"), &names) {
        Ok(format) => Ok(Request::Decode(Decoding {
            graph,
            plan,
            shots,
            format,
            workers: workers(options),
            window: window(options),
            trace: trace(options),
        })),
        Err(fault) => Err(fault),
    }
}

/// The request of the command `check` with these options.
fn read_checking<'a>(options: &ArgMatches<'a>) -> Result<Request<'a>, WordsFault>
    ensures request { IfOk result (λ e. checking_of (rows_of (found_of options.now)) ≡ Ok (plain_request e)) }
    ensures fault { IfErr result (IsFaultOf (checking_of (rows_of (found_of options.now)))) }
    ensures parsed { IfErr result (λ f. usage_of f ≢ Some UsageKind.Parse) }
{
    let graph = option(options, "graph");
    let shots = option(options, "shots");
    let report = option(options, "report");
    match accepted_format(option(options, "format"), &[graph, shots, report]) {
        Ok(format) => Ok(Request::Check(Checking {
            graph,
            shots,
            format,
            report,
        })),
        Err(fault) => Err(fault),
    }
}

/// What the command `sample` asks for with these options.
fn read_sampling(options: &ArgMatches<'_>) -> Sampling
    requires { HasSampleOptions (rows_of (found_of options.now)) }
    ensures { plain_sampling result ≡ sampling_of (rows_of (found_of options.now)) }
{
    Sampling {
        distance: number(options, "distance").unwrap_or(0),
        rounds: number(options, "rounds").unwrap_or(0),
        units: number(options, "units").unwrap_or(0),
        rate: number(options, "rate").unwrap_or(0),
        start: long_number(options, "start").unwrap_or(0),
        shots: number(options, "shots").unwrap_or(0),
        workers: workers(options),
        window: window(options),
    }
}

/// What the command `plan` asks for with these options.
fn read_planning<'a>(options: &ArgMatches<'a>) -> Planning<'a>
    requires { HasPlanOptions (rows_of (found_of options.now)) }
    ensures { plain_planning result ≡ planning_of (rows_of (found_of options.now)) }
{
    Planning {
        graph: option(options, "graph"),
        units: number(options, "units").unwrap_or(0),
    }
}

/// The request of the command `predict` with these options.
fn read_predicting<'a>(options: &ArgMatches<'a>) -> Result<Request<'a>, WordsFault>
    ensures request { IfOk result (λ e. predicting_of (rows_of (found_of options.now)) ≡ Ok (plain_request e)) }
    ensures fault { IfErr result (IsFaultOf (predicting_of (rows_of (found_of options.now)))) }
    ensures parsed { IfErr result (λ f. usage_of f ≢ Some UsageKind.Parse) }
{
    let graph = option(options, "graph");
    let observables = option(options, "observables");
    let report = option(options, "report");
    match accepted_coding(option(options, "to"), &[graph, observables, report]) {
        Ok(to) => Ok(Request::Predict(Predicting {
            graph,
            observables,
            report,
            to,
        })),
        Err(fault) => Err(fault),
    }
}

/// The format of bits that a word names, or why a command that reads inputs of these names is refused.
fn accepted_coding(word: &str, names: &[&str]) -> Result<Coding, WordsFault>
    ensures format { IfOk result (λ f. accepted_format (coding_of word.now) (map (λ name. name.now) names.now) ≡ Ok f) }
    ensures fault { IfErr result (IsFaultOf (accepted_format (coding_of word.now) (map (λ name. name.now) names.now))) }
    ensures parsed { IfErr result (λ f. usage_of f ≢ Some UsageKind.Parse) }
{
    let Some(to) = coding_of(word) else {
        return Err(WordsFault::Format);
    };
    if has_two_inputs(names) {
        return Err(WordsFault::TwoInputs);
    }
    Ok(to)
}

/// The format that a word names, or why a command that reads inputs of these names is refused.
fn accepted_format(word: &str, names: &[&str]) -> Result<Format, WordsFault>
    ensures format { IfOk result (λ f. accepted_format (format_of word.now) (map (λ name. name.now) names.now) ≡ Ok f) }
    ensures fault { IfErr result (IsFaultOf (accepted_format (format_of word.now) (map (λ name. name.now) names.now))) }
    ensures parsed { IfErr result (λ f. usage_of f ≢ Some UsageKind.Parse) }
{
    let Some(format) = format_of(word) else {
        return Err(WordsFault::Format);
    };
    if has_two_inputs(names) {
        return Err(WordsFault::TwoInputs);
    }
    Ok(format)
}

/// The value of an option.
fn option<'a>(options: &ArgMatches<'a>, name: &str) -> &'a str
    ensures { result.now ≡ option_of name.now (rows_of (found_of options.now)) }
{
    options.get_str(name).unwrap_or("")
}

/// The number of an option, if the option is given.
fn number(options: &ArgMatches<'_>, name: &str) -> Option<u32>
    requires { IfSome (one_of name.now (rows_of (found_of options.now))) (WritesBelow (2 ^ 32)) }
    ensures { result ≡ number_of name.now (rows_of (found_of options.now)) }
{
    options.get_one(name)
}

/// The number of an option that may have 64 bits, if the option is given.
fn long_number(options: &ArgMatches<'_>, name: &str) -> Option<u64>
    requires { IfSome (one_of name.now (rows_of (found_of options.now))) (WritesBelow (2 ^ 64)) }
    ensures { result ≡ number_of name.now (rows_of (found_of options.now)) }
{
    options.get_one(name)
}

/// How many workers are asked for.
fn workers(options: &ArgMatches<'_>) -> u32
    requires { HasNumberIfGiven (codes "workers") ranges.workers (rows_of (found_of options.now)) }
    ensures { result ≡ workers_of (rows_of (found_of options.now)) }
{
    number(options, "workers").unwrap_or(1)
}

/// How many shots are asked to be solved at once.
fn window(options: &ArgMatches<'_>) -> u32
    requires { HasNumberIfGiven (codes "window") ranges.windows (rows_of (found_of options.now)) }
    ensures { result ≡ window_of (rows_of (found_of options.now)) }
{
    number(options, "window").unwrap_or(1)
}

/// Whether a trace is asked for.
fn trace(options: &ArgMatches<'_>) -> bool
    requires { HasDecodeOptions (rows_of (found_of options.now)) }
    ensures { result ≡ trace_of (rows_of (found_of options.now)) }
{
    options.get_flag("trace")
}

/// The format that a word names.
fn format_of(word: &str) -> Option<Format>
    ensures { result ≡ format_of word.now }
{
    match word {
        "01" => Some(Format::Text01),
        "b8" => Some(Format::B8),
        "dets" => Some(Format::Dets),
        "hits" => Some(Format::Hits),
        "r8" => Some(Format::R8),
        "json" => Some(Format::Json),
        _ => None,
    }
}

/// The format of bits that a word names.
fn coding_of(word: &str) -> Option<Coding>
    ensures { result ≡ coding_of word.now }
{
    match word {
        "01" => Some(Coding::Text01),
        "b8" => Some(Coding::B8),
        "dets" => Some(Coding::Dets),
        "hits" => Some(Coding::Hits),
        "r8" => Some(Coding::R8),
        _ => None,
    }
}

/// Whether more than one of the names is that of standard input.
fn has_two_inputs(names: &[&str]) -> bool
    ensures { result ≡ has_two_inputs (map (λ name. name.now) names.now) }
{
    names.iter().filter(|name| **name == "-").count() > 1
}

/// What `clap` says of words that it doesn't take.
fn refusal(alloc: Global, error: &Error) -> WordsFault
    ensures memory { kind_of error.now ≡ ErrorKind.OutOfMemory → result ≡ WordsFault.NoMemory }
    ensures parse { IfSome (usage_of result) (λ kind. kind ≡ UsageKind.Parse) }
{
    if matches!(error.kind(), ErrorKind::OutOfMemory) {
        return WordsFault::NoMemory;
    }
    match format!(in alloc; "{error}") {
        Ok(text) => WordsFault::Parse(text),
        Err(_) => WordsFault::NoMemory,
    }
}
