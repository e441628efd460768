//! The command line of `fusion`, as `clap` takes it.

ghost use Rattle.std.specs.Prelude.{◌≡◌, IfOk, Ok, codes};
ghost use Rattle.clap.specs.Words.{App, app_of, new_app, with_subcommand};
ghost use Rattle.fb_command_line.specs.Command.{check_app, decode_app, flag_rule, free_rule, fusion_app, number_rule, option_rule, plan_app, predict_app, required_number_rule, sample_app};
ghost use Rattle.fb_command_line.specs.InternalCommands.{AreOptions, IsCommand, IsOption, bare_app};
ghost use Rattle.fb_request.specs.Ranges.{Range};
ghost use Rattle.fb_request.specs.Ranges as ranges;

use crate::help;
use crate::limits::{
    LEAST_DISTANCE, MOST_AT_ONCE, MOST_DISTANCE, MOST_DRAWN, MOST_RATE, MOST_ROUNDS, MOST_UNITS,
    MOST_WORKERS,
};
use clap::builder::ValueParser;
use clap::{Arg, ArgAction, Command};
use std::alloc::{AllocError, Global};
use std::ops::RangeInclusive;

/// The version that `--version` prints.
const VERSION: &str = "0.1.0";

/// The whole command line: one command and its options.
pub fn fusion<'a>(alloc: Global) -> Result<Command<'a>, AllocError>
    ensures { IfOk result (λ c. app_of c ≡ fusion_app) }
{
    let program = with_command(program(alloc), decode(alloc));
    let program = with_command(program, check(alloc));
    let program = with_command(program, sample(alloc));
    let program = with_command(program, planning(alloc));
    with_command(program, predicting(alloc))
}

/// The program with one command more, if there was enough memory to make both.
fn with_command<'a>(
    program: Result<Command<'a>, AllocError>,
    command: Result<Command<'a>, AllocError>,
) -> Result<Command<'a>, AllocError>
    ensures { (whole app : App) → IfOk program.entry (λ c. app_of c ≡ whole) → IfOk command.entry (IsCommand app)
        → IfOk result (λ c. app_of c ≡ with_subcommand whole app.top) }
{
    let Some((program, command)) = program.ok().zip(command.ok()) else {
        return Err(AllocError);
    };
    program.subcommand(command)
}

/// The program, without its commands.
fn program<'a>(alloc: Global) -> Result<Command<'a>, AllocError>
    ensures { IfOk result (IsCommand bare_app) }
{
    let command = command(
        alloc,
        "fusion",
        "A proved exact decoder for quantum error correction",
        help::FUSION,
    );
    command
        .version(VERSION)
        .subcommand_required(true)
        .bin_name("fusion")
}

/// The command `decode`.
fn decode<'a>(alloc: Global) -> Result<Command<'a>, AllocError>
    ensures { IfOk result (IsCommand decode_app) }
{
    let options = decode_options(alloc)?;
    let command = command(
        alloc,
        "decode",
        "Write a lightest correction of each shot, with cuts that show that none is lighter",
        help::DECODE,
    );
    command.args(options)
}

/// The command `check`.
fn check<'a>(alloc: Global) -> Result<Command<'a>, AllocError>
    ensures { IfOk result (IsCommand check_app) }
{
    let options = check_options(alloc)?;
    let command = command(
        alloc,
        "check",
        "Check each row of a report against the graph and the shots",
        help::CHECK,
    );
    command.args(options)
}

/// The command `sample`.
fn sample<'a>(alloc: Global) -> Result<Command<'a>, AllocError>
    ensures { IfOk result (IsCommand sample_app) }
{
    let options = sample_options(alloc)?;
    let command = command(
        alloc,
        "sample",
        "Draw shots on a lattice, decode them, and sum up how many defects they have and what their corrections weigh",
        help::SAMPLE,
    );
    command.args(options)
}

/// The command `plan`.
fn planning<'a>(alloc: Global) -> Result<Command<'a>, AllocError>
    ensures { IfOk result (IsCommand plan_app) }
{
    let options = planning_options(alloc)?;
    let command = command(
        alloc,
        "plan",
        "Write a plan of a graph, by which `decode` solves it in parts",
        help::PLAN,
    );
    command.args(options)
}

/// The command `predict`.
fn predicting<'a>(alloc: Global) -> Result<Command<'a>, AllocError>
    ensures { IfOk result (IsCommand predict_app) }
{
    let options = predicting_options(alloc)?;
    let command = command(
        alloc,
        "predict",
        "Write the observables that the corrections of a report flip",
        help::PREDICT,
    );
    command.args(options)
}

/// The options of `decode`.
fn decode_options<'a>(alloc: Global) -> Result<Vec<Arg<'a>>, AllocError>
    ensures { IfOk result (λ options. AreOptions decode_app.top.rules options.items) }
{
    let options = [
        graph(alloc),
        shots(alloc),
        format(alloc),
        plan(alloc),
        workers(alloc),
        window(alloc),
        trace(alloc),
    ];
    list_of(alloc, options)
}

/// The options of `check`.
fn check_options<'a>(alloc: Global) -> Result<Vec<Arg<'a>>, AllocError>
    ensures { IfOk result (λ options. AreOptions check_app.top.rules options.items) }
{
    let options = [graph(alloc), shots(alloc), format(alloc), report(alloc)];
    list_of(alloc, options)
}

/// The options of `sample`.
fn sample_options<'a>(alloc: Global) -> Result<Vec<Arg<'a>>, AllocError>
    ensures { IfOk result (λ options. AreOptions sample_app.top.rules options.items) }
{
    let options = [
        distance(alloc),
        rounds(alloc),
        units(alloc),
        rate(alloc),
        start(alloc),
        drawn_shots(alloc),
        workers(alloc),
        window(alloc),
    ];
    list_of(alloc, options)
}

/// The options of `plan`.
fn planning_options<'a>(alloc: Global) -> Result<Vec<Arg<'a>>, AllocError>
    ensures { IfOk result (λ options. AreOptions plan_app.top.rules options.items) }
{
    let options = [graph(alloc), graph_units(alloc)];
    list_of(alloc, options)
}

/// The options of `predict`.
fn predicting_options<'a>(alloc: Global) -> Result<Vec<Arg<'a>>, AllocError>
    ensures { IfOk result (λ options. AreOptions predict_app.top.rules options.items) }
{
    let options = [graph(alloc), observables(alloc), report(alloc), to(alloc)];
    list_of(alloc, options)
}

/// The list of these items.
fn list_of<T: Drop, const N: usize>(alloc: Global, items: [T; N]) -> Result<Vec<T>, AllocError>
    ensures { IfOk result (λ list. list.items ≡ items) }
{
    Ok(Vec::from_array(alloc, items)?)
}

/// A command without options.
fn command<'a>(alloc: Global, name: &'a str, about: &'a str, after_help: &'a str) -> Command<'a>
    ensures { IsCommand (new_app name.entry.now) result }
{
    Command::new(alloc, name)
        .about(about)
        .after_help(after_help)
}

/// The option for the graph.
fn graph<'a>(alloc: Global) -> Arg<'a>
    ensures { IsOption (option_rule (codes "graph")) result }
{
    option(
        alloc,
        "graph",
        "NAME",
        "The decoding graph, at most 1048576 vertices and 4194304 edges: the solver initializer of Fusion Blossom, in JSON",
    )
    .required(true)
}

/// The option for the plan.
fn plan<'a>(alloc: Global) -> Arg<'a>
    ensures { IsOption (free_rule (codes "plan")) result }
{
    option(
        alloc,
        "plan",
        "NAME",
        "A plan, at most 4096 units, by which the graph is solved in parts, in JSON; without one it is solved whole",
    )
}

/// The option for the shots.
fn shots<'a>(alloc: Global) -> Arg<'a>
    ensures { IsOption (option_rule (codes "shots")) result }
{
    option(
        alloc,
        "shots",
        "NAME",
        "The shots, at most 4294967295: the detectors that fired in each",
    )
    .required(true)
}

/// The option for the form of the shots.
fn format<'a>(alloc: Global) -> Arg<'a>
    ensures { IsOption (option_rule (codes "format")) result }
{
    option(
        alloc,
        "format",
        "FORMAT",
        "How the shots are written: 01, b8, dets, hits or r8 of Stim, or json, lines of JSON",
    )
    .required(true)
}

/// The option for the report.
fn report<'a>(alloc: Global) -> Arg<'a>
    ensures { IsOption (option_rule (codes "report")) result }
{
    option(
        alloc,
        "report",
        "NAME",
        "The report, at most 1073741824 bytes: as `decode` writes it",
    )
    .required(true)
}

/// The option for the observables.
fn observables<'a>(alloc: Global) -> Arg<'a>
    ensures { IsOption (option_rule (codes "observables")) result }
{
    option(
        alloc,
        "observables",
        "NAME",
        "The observables, at most 1024: the edges of each, in JSON",
    )
    .required(true)
}

/// The option for the form of the predictions.
fn to<'a>(alloc: Global) -> Arg<'a>
    ensures { IsOption (option_rule (codes "to")) result }
{
    option(
        alloc,
        "to",
        "FORMAT",
        "How the predictions are written: 01, b8, dets, hits or r8 of Stim",
    )
    .required(true)
}

/// The option for the number of workers.
fn workers<'a>(alloc: Global) -> Arg<'a>
    ensures { IsOption (number_rule (codes "workers") ranges.workers) result }
{
    number(
        alloc,
        "workers",
        "N",
        1..=MOST_WORKERS,
        "How many workers solve parts side by side, 1 to 64 (default: 1)",
    )
}

/// The option for the size of a window.
fn window<'a>(alloc: Global) -> Arg<'a>
    ensures { IsOption (number_rule (codes "window") ranges.windows) result }
{
    number(
        alloc,
        "window",
        "N",
        1..=MOST_AT_ONCE,
        "How many shots are taken and solved at a time, 1 to 64 (default: 1)",
    )
}

/// The flag for a trace.
fn trace<'a>(alloc: Global) -> Arg<'a>
    ensures { IsOption (flag_rule (codes "trace")) result }
{
    Arg::new(alloc, "trace")
        .long("trace")
        .help("Write after each window which worker took and gave which part")
        .action(ArgAction::SetTrue)
}

/// The option for the distance of a lattice.
fn distance<'a>(alloc: Global) -> Arg<'a>
    ensures { IsOption (required_number_rule (codes "distance") ranges.distances) result }
{
    number(
        alloc,
        "distance",
        "D",
        LEAST_DISTANCE..=MOST_DISTANCE,
        "The distance of the lattice, 2 to 255",
    )
    .required(true)
}

/// The option for the rounds of a lattice.
fn rounds<'a>(alloc: Global) -> Arg<'a>
    ensures { IsOption (required_number_rule (codes "rounds") ranges.rounds) result }
{
    number(
        alloc,
        "rounds",
        "T",
        1..=MOST_ROUNDS,
        "How many rounds the lattice has, 1 to 1048576",
    )
    .required(true)
}

/// The option for the units of a lattice's plan.
fn units<'a>(alloc: Global) -> Arg<'a>
    ensures { IsOption (required_number_rule (codes "units") ranges.units) result }
{
    number(
        alloc,
        "units",
        "U",
        1..=MOST_UNITS,
        "Into how many units the plan splits the rounds, 1 to 4096",
    )
    .required(true)
}

/// The option for the units of a graph's plan.
fn graph_units<'a>(alloc: Global) -> Arg<'a>
    ensures { IsOption (required_number_rule (codes "units") ranges.units) result }
{
    number(
        alloc,
        "units",
        "K",
        1..=MOST_UNITS,
        "Into how many units the plan splits the graph, 1 to 4096",
    )
    .required(true)
}

/// The option for the rate at which edges are hit.
fn rate<'a>(alloc: Global) -> Arg<'a>
    ensures { IsOption (required_number_rule (codes "rate") ranges.rates) result }
{
    number(
        alloc,
        "rate",
        "R",
        0..=MOST_RATE,
        "In how many of 1048576 draws an edge is hit, 0 to 1048576",
    )
    .required(true)
}

/// The option for the seed of the draws.
fn start<'a>(alloc: Global) -> Arg<'a>
    ensures { IsOption (required_number_rule (codes "start") ranges.starts) result }
{
    number(
        alloc,
        "start",
        "X",
        0..=u64::MAX,
        "The seed of the draws, 0 to 18446744073709551615",
    )
    .required(true)
}

/// The option for the number of shots that are drawn.
fn drawn_shots<'a>(alloc: Global) -> Arg<'a>
    ensures { IsOption (required_number_rule (codes "shots") ranges.shots) result }
{
    number(
        alloc,
        "shots",
        "N",
        1..=MOST_DRAWN,
        "How many shots are drawn, 1 to 1000000",
    )
    .required(true)
}

/// An option that may be given, once, as `--name value`.
fn option<'a>(alloc: Global, name: &'a str, value_name: &'a str, help: &'a str) -> Arg<'a>
    ensures { IsOption (free_rule name.entry.now) result }
{
    Arg::new(alloc, name)
        .long(name)
        .value_name(value_name)
        .help(help)
        .action(ArgAction::Set)
}

/// An option whose value is a number in a range.
fn number<'a>(
    alloc: Global,
    name: &'a str,
    value_name: &'a str,
    range: RangeInclusive<u64>,
    help: &'a str,
) -> Arg<'a>
    ensures { IsOption (number_rule name.entry.now (record { low = range.start; high = range.end })) result }
{
    let parser = ValueParser::unsigned(*range.start(), *range.end());
    option(alloc, name, value_name, help).value_parser(parser)
}
